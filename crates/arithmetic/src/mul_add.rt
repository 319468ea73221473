// x * a + b, rounded once: IEEE 754-2019's fusedMultiplyAdd.
ghost use Rattle.std.specs.Prelude.{◌≡◌, ◌+◌, ◌-◌, ◌*◌, ◌^◌, ◌<◌, ◌≤◌, T, if◌then◌else◌};
ghost use Rattle.std.specs.Float.Ieee as Ieee;
ghost use Rattle.std.specs.Float.{binary64};
ghost use Rattle.std.specs.Float.Ieee.Scale.{finite};
ghost use Rattle.std.specs.Float.Ieee.Nearest.{closest};
ghost use Rattle.arithmetic.specs.Internal.Pair.{val};
ghost use Rattle.arithmetic.specs.Internal.Exponent.{above};
ghost use Rattle.arithmetic.specs.Internal.MulAdd.{OperandExponent, TermExponent, KeptExponent, LastDigit};
ghost use Rattle.arithmetic.specs.MulAdd.{mul_add};

use super::basic::is_finite;
use super::exponent::Exponent;
use super::format::{
    FIELD_OFFSET, FRACTION_DIGITS, FRACTION_FIELD, INFINITY, LEAST_EXPONENT, MIN_EXP, PRECISION,
    SIGN, TWO_TO_52,
};
use super::pair::{Pair, WORD};

// The smallest value above 0 is 2^LEAST, and the smallest product 2^LEAST_PRODUCT: twice that exponent.
const LEAST: Exponent = Exponent {
    value: LEAST_EXPONENT,
};

const LEAST_PRODUCT: Exponent = Exponent { value: -2148 };

// What the exponent of a normal value is above its field.
const OFFSET: Exponent = Exponent {
    value: FIELD_OFFSET,
};

// A product has 106 binary digits at most, and can be shifted up by so many within a pair.
const HEADROOM: u64 = 20;

// Digits kept below the last one of a result: the guard digit, and the sticky digit, which is 1 where anything but 0 is
// dropped below it.
const GUARD_DIGITS: u64 = 2;

// Their field, which counts quarters of the last digit, and its value at a tie.
const GUARD_FIELD: u64 = 3;

const TIE: u64 = 2;

// An operand: the sign, and the magnitude m * 2^j.
#[derive(Clone, Copy)]
pub struct Parts {
    pub negative: bool,
    pub m: u64,
    pub j: Exponent,
    ghost small: { m < 2 ^ 53 },
    ghost exponent: { OperandExponent j.value },
    ghost lead: { (0 < above 1074 j.value → 2 ^ 52 ≤ m) },
}

// The magnitude v * 2^e.
#[derive(Clone, Copy)]
struct Term {
    v: Pair,
    e: Exponent,
    ghost exponent: { TermExponent e.value },
}

// Two magnitudes on one scale: a * 2^e and b * 2^e.
#[derive(Clone, Copy)]
pub struct Terms {
    pub a: Pair,
    pub b: Pair,
    pub e: Exponent,
    ghost small_a: { val a < 2 ^ 127 },
    ghost small_b: { val b < 2 ^ 127 },
    ghost exponent: { TermExponent e.value },
}

// m / 4 * 2^k, for an m of at most 55 digits: the last two are the guard digit and the sticky digit.
#[derive(Clone, Copy)]
pub struct Guarded {
    pub m: u64,
    pub k: Exponent,
    ghost short: { m < 2 ^ 55 },
    ghost exponent: { KeptExponent k.value },
    ghost lead: { (0 < above 1074 k.value → 2 ^ 54 ≤ m) },
}

impl Parts {
    ghost use Rattle.arithmetic.specs.Internal.MulAddSteps.{Decoded, ProductExponent, IsProduct};

    // The parts of a finite x.
    fn decode(x: f64) -> Parts
        requires { T (finite x) }
        ensures { Decoded x result }
    {
        let bits = f64::to_bits(x);
        let negative = SIGN <= bits;
        let field = Exponent::field(bits);
        let digits = bits & FRACTION_FIELD;
        if field.value == 0 {
            return Parts {
                negative,
                m: digits,
                j: LEAST,
            };
        }
        Parts {
            negative,
            m: digits + TWO_TO_52,
            j: field.sum(OFFSET),
        }
    }

    // The exponent of the product with v: the least one for a product that is 0.
    fn product_exponent(self, v: Parts) -> Exponent
        ensures { ProductExponent self v result.value }
    {
        if self.m == 0 || v.m == 0 {
            return LEAST_PRODUCT;
        }
        self.j.sum(v.j)
    }

    // The product of the magnitudes.
    fn product(self, v: Parts) -> Term
        ensures { IsProduct self v result }
    {
        Term {
            v: Pair::product(self.m, v.m),
            e: self.product_exponent(v),
        }
    }
}

impl Term {
    ghost use Rattle.arithmetic.specs.Internal.MulAddSteps.{Aligned, IsGuarded};

    // A product and an addend on one scale. What one has below the scale is jammed into its last digit, which lies far below
    // the last digit of the rounded sum.
    fn align(self, w: Parts) -> Terms
        requires small { val self.v < 2 ^ 106 }
        requires lead { (1074 < above 2148 self.e.value → 2 ^ 52 ≤ val self.v) }
        ensures { Aligned self w result }
    {
        let b = Pair::from(w.m);
        if self.e <= w.j {
            let d = w.j.distance(self.e);
            if d < WORD {
                return Terms {
                    a: self.v,
                    b: b << d,
                    e: self.e,
                };
            }
            return Terms {
                a: self.v.jam(d - WORD),
                b: Pair { hi: w.m, lo: 0 },
                e: w.j.lowered(WORD),
            };
        }
        let d = self.e.distance(w.j);
        if d <= HEADROOM {
            return Terms {
                a: self.v << d,
                b,
                e: w.j,
            };
        }
        Terms {
            a: self.v << HEADROOM,
            b: b.jam(d - HEADROOM),
            e: self.e.lowered(HEADROOM),
        }
    }

    // Cut to the digits that a result keeps, the guard digit and the sticky digit. 2^end is the least power of two above
    // v * 2^e.
    fn to_guarded(self) -> Guarded
        ensures { IsGuarded (val self.v * 2 ^ above 2148 self.e.value) result }
    {
        let n = self.v.digits();
        if n == 0 {
            return Guarded { m: 0, k: LEAST };
        }
        let end = self.e.raised(n);
        if MIN_EXP <= end.value {
            self.to_guarded_above(end.lowered(PRECISION))
        } else {
            self.to_guarded_above(LEAST)
        }
    }

    // The same, where `at` is the exponent of the result's last digit: digits below the guard digit are jammed into the
    // sticky one, or zeros are appended.
    fn to_guarded_above(self, at: Exponent) -> Guarded
        requires { LastDigit (val self.v) self.e.value at.value }
        ensures { IsGuarded (val self.v * 2 ^ above 2148 self.e.value) result }
    {
        let sticky = at.lowered(GUARD_DIGITS);
        if self.e <= sticky {
            let m = self.v.jam(sticky.distance(self.e));
            return Guarded { m: m.lo, k: at };
        }
        let m = self.v.lo << self.e.distance(sticky);
        Guarded { m, k: at }
    }

    // The nearest value, with a sign.
    fn round(self, negative: bool) -> f64
        ensures { result ≡ Ieee.round binary64 negative (val self.v * 2 ^ above 2148 self.e.value) (2 ^ 2148) }
    {
        self.to_guarded().pack(negative)
    }
}

impl Terms {
    // The sum with the signs s and t, rounded.
    fn sum(self, s: bool, t: bool) -> f64
        ensures { result ≡ Ieee.sum binary64 s (val self.a * 2 ^ above 2148 self.e.value)
            t (val self.b * 2 ^ above 2148 self.e.value) (2 ^ 2148) }
    {
        let (a, b) = (self.a, self.b);
        let (negative, v) = if s == t {
            (s, a + b)
        } else if a < b {
            (t, b - a)
        } else {
            (s && b < a, a - b)
        };
        Term { v, e: self.e }.round(negative)
    }
}

impl Guarded {
    // m / 4 to the nearest whole number, a tie to the even one.
    fn round(self) -> u64
        ensures { result ≡ closest self.m 4 }
    {
        let q = self.m >> GUARD_DIGITS;
        let r = self.m & GUARD_FIELD;
        if r < TIE {
            q
        } else if r == TIE {
            q + (q & 1)
        } else {
            q + 1
        }
    }

    // Rounded to a whole number times 2^k, or to an infinity. How far k lies above the least exponent is the exponent's
    // field less 1, which the leading digit of a normal value adds; a carry out of the significand goes there too.
    fn pack(self, negative: bool) -> f64
        ensures { result ≡ Ieee.units binary64 negative (closest self.m 4) (above 1074 self.k.value) }
    {
        let magnitude = (self.k.distance(LEAST) << FRACTION_DIGITS) + self.round();
        with_sign(negative, magnitude.min(INFINITY))
    }
}

// The value whose pattern has this sign and these bits below it.
fn with_sign(negative: bool, magnitude: u64) -> f64
    requires { magnitude ≤ 2047 * 2 ^ 52 }
    ensures { result ≡ Ieee.of_bits binary64 ((if negative then 2 ^ 63 else 0) + magnitude) }
{
    if negative {
        f64::from_bits(SIGN + magnitude)
    } else {
        f64::from_bits(magnitude)
    }
}

// x * a + b. Of finite x and a and a b that is not finite the result is b: the product by the operator could overflow.
pub fn mul_add(x: f64, a: f64, b: f64) -> f64
    ensures { result ≡ mul_add x a b }
{
    if !is_finite(x) || !is_finite(a) {
        return x * a + b;
    }
    if !is_finite(b) {
        return b;
    }
    let u = Parts::decode(x);
    let v = Parts::decode(a);
    let w = Parts::decode(b);
    u.product(v)
        .align(w)
        .sum(u.negative != v.negative, w.negative)
}
