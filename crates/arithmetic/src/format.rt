// Numbers of the format binary64: IEEE 754-2019, 3.4.

// Binary digits of a significand, the leading one included, and without it.
pub(crate) const PRECISION: u64 = 53;

pub(crate) const FRACTION_DIGITS: u64 = 52;

// The smallest value above 0 is 2^LEAST_EXPONENT.
pub(crate) const LEAST_EXPONENT: i16 = -1074;

// 2^MIN_EXP is the least power of two above the smallest normal value, as Rust's f64::MIN_EXP has it. It is
// LEAST_EXPONENT + PRECISION.
pub(crate) const MIN_EXP: i16 = -1021;

// A normal value whose exponent's field is f has its last digit at 2^(f + FIELD_OFFSET). It is LEAST_EXPONENT - 1.
pub(crate) const FIELD_OFFSET: i16 = -1075;

// The exponent's field of 1.
pub(crate) const BIAS: u64 = 1023;

// The exponent's field of 2^52, BIAS + FRACTION_DIGITS: from there on every value is whole, and below it the last
// WHOLE_FIELD - field digits of a significand are below the unit.
pub(crate) const WHOLE_FIELD: u64 = 1075;

// Fields of a bit pattern: the sign, the exponent's once it is shifted down, the fraction's.
pub const SIGN: u64 = 0x8000_0000_0000_0000;

pub(crate) const EXPONENT_FIELD: u64 = 0x7ff;

pub(crate) const FRACTION_FIELD: u64 = 0xf_ffff_ffff_ffff;

// 2^52: the leading digit that a normal number's pattern leaves out, and one step of the exponent's field in a pattern.
pub(crate) const TWO_TO_52: u64 = 0x10_0000_0000_0000;

// 2^53: two steps. A significand is below it.
pub(crate) const TWO_TO_53: u64 = 0x20_0000_0000_0000;

// A bit pattern. One that is larger with its sign taken off is a NaN's.
pub const INFINITY: u64 = 0x7ff0_0000_0000_0000;
