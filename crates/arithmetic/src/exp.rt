// e^x, with fdlibm's names and coefficients: x = k ln 2 + r, and e^x = 2^k e^r.
ghost use Rattle.std.specs.Prelude.{◌≡◌, ◌^◌, ◌<◌, false, not, T, is_nan};
ghost use Rattle.std.specs.Float.{binary64};
ghost use Rattle.std.specs.Float.Ieee.{minus, mul};
ghost use Rattle.std.specs.Float.Ieee.Exact.{HasValue};
ghost use Rattle.arithmetic.specs.Basic.{is_sign_minus};
ghost use Rattle.arithmetic.specs.Exp.{half_away, reduced, scale_b, exp};
ghost use Rattle.arithmetic.specs.Internal.Exp.{near_zero, in_fast_range, clear_of_tie};

use super::basic::{is_within, trunc};
use super::format::{FRACTION_DIGITS, PRECISION, TWO_TO_52};

// The sum of the two is ln 2: a k of 11 bits times LN2_HI is exact.
pub(crate) const LN2_HI: f64 = 0.6931471803691238;

pub(crate) const LN2_LO: f64 = 0.00000000019082149292705877;

// 1 / ln 2.
const INVLN2: f64 = 1.4426950408889634;

// Above the first the result is infinite, and below the second it is 0.
const O_THRESHOLD: f64 = 709.782712893384;

const U_THRESHOLD: f64 = -745.1332191019411;

// Coefficients of r (e^r + 1) / (e^r - 1) = 2 + P1 r² + P2 r⁴ + .., near enough for an r of at most (ln 2) / 2.
const P1: f64 = 1.66666666666666019037e-01;

const P2: f64 = -2.77777777770155933842e-03;

const P3: f64 = 6.61375632143793436117e-05;

const P4: f64 = -1.65339022054652515390e-06;

const P5: f64 = 4.13813679705723846039e-08;

// An exponent k is counted from that of half the smallest value on: e = k + EXPONENT_OFFSET.
const EXPONENT_OFFSET: f64 = 1075.0;

// e of the largest k, 1024, and of the largest power of two that is an f64.
const LAST_EXPONENT: u64 = 2099;

const LAST_POWER: u64 = 2098;

// For an x of smaller magnitude, 11/32, k is 0: |x| / ln 2 is below 1/2.
const NEAR_ZERO: f64 = 0.34375;

// For an x of smaller magnitude 2^k is a normal number.
const FAST_LIMIT: f64 = 708.0;

// 3 * 2^51 + 1023. A sum with this is rounded to a whole number, so that of x / ln 2 is 3 * 2^51 + k + 1023 for the
// k nearest to x / ln 2.
const SHIFT: f64 = 6755399441056767.0;

// The bit pattern of 3 * 2^51: a sum with SHIFT has the pattern of this plus k + 1023.
const SHIFT_PATTERN: u64 = 0x4338_0000_0000_0000;

// 1/2 - 2^-16. Where x / ln 2 differs less from the nearest k, it is no tie between two, and truncation after a half is
// added gives the same k.
const MAX_REST: f64 = 0.4999847412109375;

// x / ln 2, and a half away from zero.
fn half_away(x: f64) -> f64
    requires { T (not (is_nan x)) }
    ensures { result ≡ half_away (is_sign_minus x) x }
{
    let w = x * INVLN2;
    if x.is_sign_negative() {
        w - 0.5
    } else {
        w + 0.5
    }
}

// e^(x - k ln 2).
fn reduced(x: f64, k: f64) -> f64
    ensures { result ≡ reduced x k }
{
    let h = x - k * LN2_HI;
    let l = k * LN2_LO;
    let r = h - l;
    let q = r * r;
    let c = r - q * (P1 + q * (P2 + q * (P3 + q * (P4 + q * P5))));
    1.0 - ((l - (r * c) / (2.0 - c)) - h)
}

// 2^(e - 1075), which is subnormal for an e below 53.
fn power(e: u64) -> f64
    requires positive { 0 < e }
    requires below_overflow { e < 2099 }
    ensures { HasValue result false (2 ^ e) (2 ^ 1075) }
{
    if e < PRECISION {
        f64::from_bits(1 << (e - 1))
    } else {
        f64::from_bits((e - FRACTION_DIGITS) * TWO_TO_52)
    }
}

// y * 2^(e - 1075), rounded once. At the first and the last e the power is no f64. There the first
// of two products is exact, or infinite as the result is, or too small to count.
fn scale_b(y: f64, e: u64) -> f64
    requires { e < 2100 }
    ensures { result ≡ scale_b y (minus e 1075) }
{
    if e == 0 {
        return y * 0.5 * power(1);
    }
    if e == LAST_EXPONENT {
        return y * 2.0 * power(LAST_POWER);
    }
    y * power(e)
}

// e^x for every x, NaN and the infinities among them: k is the whole part of x / ln 2 and a half, and 2^k may be
// subnormal.
fn general(x: f64) -> f64
    ensures { result ≡ exp x }
{
    if x.is_nan() {
        return x;
    }
    if x > O_THRESHOLD {
        return f64::INFINITY;
    }
    if x < U_THRESHOLD {
        return 0.0;
    }
    let k = trunc(half_away(x));
    scale_b(reduced(x, k), (k + EXPONENT_OFFSET) as u64)
}

// e^x of an x so near 0 that k is 0: `reduced` with a k of 0, where h is x and l is 0. With d for its quotient, (l - d) - h
// is -(d + x).
fn near_zero(x: f64) -> f64
    requires { T (near_zero x) }
    ensures { result ≡ exp x }
{
    let q = x * x;
    let c = x - q * (P1 + q * (P2 + q * (P3 + q * (P4 + q * P5))));
    1.0 + ((x * c) / (2.0 - c) + x)
}

// Whether x / ln 2 is clear of every tie, half way between two whole numbers: of an x in the fast range the k that SHIFT
// gives is then the k of `general`.
fn is_clear_of_tie(x: f64) -> bool
    ensures { result ≡ clear_of_tie x }
{
    let w = x * INVLN2;
    is_within(w - (w + SHIFT - SHIFT), MAX_REST)
}

// e^x of an x in the fast range, where 2^k is a normal number and no result overflows or is subnormal, and clear of a tie: k
// and the pattern of 2^k come from the sum with SHIFT.
fn fast(x: f64) -> f64
    requires in_range { T (in_fast_range x) }
    requires no_tie { T (clear_of_tie x) }
    ensures { result ≡ exp x }
{
    let t = x * INVLN2 + SHIFT;
    let field = f64::to_bits(t) - SHIFT_PATTERN;
    reduced(x, t - SHIFT) * f64::from_bits(field * TWO_TO_52)
}

pub fn exp(x: f64) -> f64
    ensures { result ≡ exp x }
{
    if is_within(x, NEAR_ZERO) {
        return near_zero(x);
    }
    if is_within(x, FAST_LIMIT) && is_clear_of_tie(x) {
        return fast(x);
    }
    general(x)
}

// e^x e^y. On the fast path both take the same steps, so that a processor can take them in pairs.
pub fn exp_product(x: f64, y: f64) -> f64
    ensures { result ≡ mul binary64 (exp x) (exp y) }
{
    if is_within(x, FAST_LIMIT) & is_within(y, FAST_LIMIT) {
        if is_clear_of_tie(x) & is_clear_of_tie(y) {
            return fast(x) * fast(y);
        }
    }
    exp(x) * exp(y)
}
