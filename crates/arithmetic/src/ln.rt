// The natural logarithm of x, and of 1 + u for a u near 0, with fdlibm's coefficients.
ghost use Rattle.std.specs.Prelude.{◌≡◌, ◌^◌, ◌≤◌};
ghost use Rattle.arithmetic.specs.Operations.{◌⊕◌, ◌⊖◌, ◌⊗◌, one};
ghost use Rattle.arithmetic.specs.Exp.{ln2_lo};
ghost use Rattle.arithmetic.specs.Ln.{series, ln, ln1p};
ghost use Rattle.arithmetic.specs.Internal.Ln.{significand_of_bits, exponent_of_bits};

use super::basic::is_within;
use super::constants::MIN_POSITIVE;
use super::exp::{LN2_HI, LN2_LO};
use super::format::TWO_TO_52;

// Coefficients of ln((1 + s) / (1 - s)) / s = 2 + G1 s² + G2 s⁴ + .., near enough for an f = 2s / (1 - s) from √(1/2) - 1
// to √2 - 1.
const G1: f64 = 6.666666666666735130e-01;

const G2: f64 = 3.999999999940941908e-01;

const G3: f64 = 2.857142874366239149e-01;

const G4: f64 = 2.222219843214978396e-01;

const G5: f64 = 1.818357216161805012e-01;

const G6: f64 = 1.531383769920937332e-01;

const G7: f64 = 1.479819860511658591e-01;

// The pattern of the least m, 741455 / 2^20, a little below √(1/2), of its double, and the fraction of both.
const LEAST_SIGNIFICAND: u64 = 0x3fe6_a09e_0000_0000;

const TWICE_LEAST: u64 = 0x3ff6_a09e_0000_0000;

const LEAST_FRACTION: u64 = 0x0006_a09e_0000_0000;

// 2^52, by which a subnormal number is made a normal one, and what that adds to the pattern of a normal number: 52
// steps of the exponent's field.
const NORMALISER: f64 = 4503599627370496.0;

const NORMALISER_STEPS: u64 = 0x0340_0000_0000_0000;

// The number m * 2^k, for a whole k.
#[derive(Drop)]
pub struct Decomposed {
    pub m: f64,
    pub k: f64,
}

// m and k by the pattern b of m * 2^k, whose exponent's field is counted from 52 on. That field has a new value from
// each power of two on, and k from the least m times it, so b is moved down first.
fn decompose_bits(b: u64) -> Decomposed
    requires { 2 ^ 52 ≤ b }
    ensures { (result.m ≡ significand_of_bits b) × (result.k ≡ exponent_of_bits b) }
{
    let t = b - LEAST_FRACTION;
    Decomposed {
        m: f64::from_bits(t % TWO_TO_52 + LEAST_SIGNIFICAND),
        k: ((t / TWO_TO_52) as u32) as f64 - 1074.0,
    }
}

// The sum that both logarithms end with. The test keeps the compiler from pairing the operations of the two halves of r,
// which would wait for each other: a NaN there is the result.
fn series(f: f64, k: f64, kl: f64) -> f64
    ensures { result ≡ series f k kl }
{
    let s = f / (2.0 + f);
    let z = s * s;
    let w = z * z;
    let g = (0.5 * f) * f;
    let odd = z * (G1 + w * (G3 + w * (G5 + w * G7)));
    if odd.is_nan() {
        return odd;
    }
    let r = odd + w * (G2 + w * (G4 + w * G6));
    s * (g + r) + kl - g + f + k * LN2_HI
}

// The logarithm by a pattern as `decompose_bits` takes it.
fn of_pattern(b: u64) -> f64
    requires { 2 ^ 52 ≤ b }
    ensures { result ≡ series (significand_of_bits b ⊖ one) (exponent_of_bits b) (exponent_of_bits b ⊗ ln2_lo) }
{
    let p = decompose_bits(b);
    series(p.m - 1.0, p.k, p.k * LN2_LO)
}

// What is nearly always there is tested first. Near 1 m is x and k is 0, and nothing waits for the pattern. A subnormal x
// is multiplied by 2^52, and the exponent's field of the product counts from 52 on.
pub fn ln(x: f64) -> f64
    ensures { result ≡ ln x }
{
    if MIN_POSITIVE <= x {
        if x < f64::INFINITY {
            let b = f64::to_bits(x);
            if (LEAST_SIGNIFICAND <= b) & (b < TWICE_LEAST) {
                return series(x - 1.0, 0.0, 0.0);
            }
            return of_pattern(b + NORMALISER_STEPS);
        }
        return x;
    }
    if x > 0.0 {
        return of_pattern(f64::to_bits(x * NORMALISER));
    }
    if x == 0.0 {
        return f64::NEG_INFINITY;
    }
    // below zero, or NaN
    f64::NAN
}

// The natural logarithm of 1 + u, for a u from -0.25 to 1.5.
pub fn ln_1p(u: f64) -> f64
    ensures { result ≡ ln1p u }
{
    if -0.25 <= u && u <= 1.5 {
        if u < 0.40625 {
            return series(u, 0.0, 0.0);
        }
        // from 1.40625 to 2.5, and so normal
        let v = 1.0 + u;
        let p = decompose_bits(f64::to_bits(v) + NORMALISER_STEPS);
        return series(p.m - 1.0, p.k, p.k * LN2_LO + (u - (v - 1.0)) / v);
    }
    f64::NAN
}

// 2^-20, and 2^-18: of a u below the first in size, what the series adds to u - u²/2 is at most the second times u².
const PLUS_LN_LIMIT: f64 = 0.00000095367431640625;

const PLUS_LN_SHARE: f64 = 0.000003814697265625;

// y + ln(1 + u), each rounded. The logarithm of a u near 0 lies between two values that take less time to compute; where
// both give the same sum, it is the sum.
pub fn plus_ln_1p(y: f64, u: f64) -> f64
    ensures { result ≡ y ⊕ ln1p u }
{
    if is_within(u, PLUS_LN_LIMIT) {
        let g = (0.5 * u) * u;
        let h = u * u * PLUS_LN_SHARE;
        let least = y + ((-h - g) + u);
        let most = y + ((h - g) + u);
        if (least == most) & (least < 0.0) {
            return least;
        }
    }
    y + ln_1p(u)
}
