// The methods of f64 that the source calls and that no operator gives.
ghost use Rattle.std.specs.Prelude.{◌≡◌, not, T, is_nan};
ghost use Rattle.arithmetic.specs.Basic.{abs, signum, trunc, takes_first, max, min, recip, is_finite, is_infinite};
ghost use Rattle.arithmetic.specs.Internal.Basic.{chosen, within};

use super::format::{BIAS, EXPONENT_FIELD, FRACTION_DIGITS, SIGN, WHOLE_FIELD};

// Of NaN, NaN: as a quotient, since for a cheaper operation the compiler computes both results and
// picks one, which takes longer than the test. std's `abs` compares x with 0 twice, which takes longer too.
pub fn abs(x: f64) -> f64
    ensures { result ≡ abs x }
{
    if x.is_nan() {
        return x / x;
    }
    f64::from_bits(f64::to_bits(x) % SIGN)
}

// std's `signum` takes std's `abs`, and so more operations.
pub fn signum(x: f64) -> f64
    ensures { result ≡ signum x }
{
    if x.is_nan() {
        return x;
    }
    if x.is_sign_negative() { -1.0 } else { 1.0 }
}

// The whole part, toward zero, with the sign of x: the pattern's digits below the unit are cleared. std's `trunc` goes by sums and
// comparisons, which take longer.
pub fn trunc(x: f64) -> f64
    ensures { result ≡ trunc x }
{
    if x.is_nan() {
        return x;
    }
    let bits = f64::to_bits(x);
    let field = (bits >> FRACTION_DIGITS) & EXPONENT_FIELD;
    if field < BIAS {
        return f64::from_bits(bits - bits % SIGN);
    }
    if field < WHOLE_FIELD {
        let below = WHOLE_FIELD - field;
        return f64::from_bits((bits >> below) << below);
    }
    x
}

// Whether `max` takes x: the larger, and of two that are equal x where its sign is clear.
fn takes_first(x: f64, y: f64) -> bool
    requires { T (not (is_nan x)) }
    ensures { result ≡ takes_first x y }
{
    if x < y {
        return false;
    }
    if y < x {
        return true;
    }
    x.is_sign_positive()
}

// What `max` and `min` share: a NaN is dropped, and of two numbers `first` is taken where `max` takes x, and else `second`.
fn chosen(x: f64, y: f64, first: f64, second: f64) -> f64
    ensures { result ≡ chosen x y first second }
{
    if x.is_nan() {
        return y;
    }
    if y.is_nan() {
        return x;
    }
    if takes_first(x, y) { first } else { second }
}

// std's `max` and `min` leave open which of two zeros they give.
pub fn max(x: f64, y: f64) -> f64
    ensures { result ≡ max x y }
{
    chosen(x, y, x, y)
}

pub fn min(x: f64, y: f64) -> f64
    ensures { result ≡ min x y }
{
    chosen(x, y, y, x)
}

pub fn recip(x: f64) -> f64
    ensures { result ≡ recip x }
{
    x.recip()
}

pub fn is_finite(x: f64) -> bool
    ensures { result ≡ is_finite x }
{
    x.is_finite()
}

pub fn is_infinite(x: f64) -> bool
    ensures { result ≡ is_infinite x }
{
    x.is_infinite()
}

// Whether x is a number of smaller magnitude than limit.
pub(crate) fn is_within(x: f64, limit: f64) -> bool
    ensures { result ≡ within x limit }
{
    (x < limit) & (-limit < x)
}
