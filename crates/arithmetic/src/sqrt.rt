// The square root of an f64, rounded to the nearest f64: an estimate, or a neighbour of it, where a test finds it nearest;
// else digit by digit. All of that goes by integers, whose sums a processor has sooner than those of floats.
ghost use Rattle.std.specs.Prelude.{◌≡◌, ◌^◌, ◌<◌, ◌≤◌, T, from_bits};
ghost use Rattle.std.specs.Float.{binary64};
ghost use Rattle.arithmetic.specs.Sqrt.{sqrt};
ghost use Rattle.arithmetic.specs.Internal.Sqrt.{Radicand, leading, Closest};

use super::format::{INFINITY, SIGN, TWO_TO_52, TWO_TO_53};
use super::pair::HALF_WORD;
use super::{pair, root_table};

// Powers of two: q is cut into its upper 27 and its lower 26 binary digits; where w - s² or v reaches the other two, q is
// far from the root, and products with it might not fit.
const TWO_TO_26: u64 = 0x400_0000;

const TWO_TO_28: u64 = 0x1000_0000;

const TWO_TO_30: u64 = 0x4000_0000;

// The table's index stands in seven digits of a pattern: the last of the exponent's field and six of the fraction's.
const INDEX_STEP: u64 = 0x4000_0000_0000;

const INDICES: u64 = 128;

// A pattern's sign, exponent and the fraction's digits of the index, which stand above the others.
const DIGITS_ABOVE_REST: u64 = 18;

// Binary digits of a number of the estimate below the last of a root.
const DIGITS_BELOW_ROOT: u64 = 11;

// Half a word without the three digits that a c4 has fewer.
const HALF_WORD_OF_C4: u64 = 29;

// BIAS - 2: half the sum of this and the field of x is the root's, but for the step that its leading digit adds.
const ROOT_BIAS: u64 = 1021;

// The pattern of 2^-537, the root of the smallest value above 0.
const LOWEST_ROOT: u64 = 0x1e60_0000_0000_0000;

// The leading digits w of a number under a root, w * 2^52 of its units: 53 or 54, and not 54 ones.
#[derive(Clone, Copy)]
struct Leading {
    w: u64,
    ghost in_range: { Radicand w },
}

impl Leading {
    // Of the normal x above 0 with pattern b: doubled where the exponent is odd.
    fn of_pattern(b: u64) -> Leading
        ensures { result.w ≡ leading b }
    {
        let digits = b % TWO_TO_53;
        let w = if digits < TWO_TO_52 {
            2 * digits + TWO_TO_53
        } else {
            digits
        };
        Leading { w }
    }

    // Whether q is the whole number nearest to √(w * 2^52): true only if it is, and nearly always if it is. With d the lower
    // 26 binary digits of q, s those above, and v = (w - s²) * 2^26 + s - 2sd, w * 2^52 - q² + q = v * 2^26 + d - d².
    fn is_closest(self, q: u64) -> bool
        ensures { T result → Closest self.w q }
    {
        if TWO_TO_53 <= q {
            return false;
        }
        let s = q / TWO_TO_26;
        let d = q % TWO_TO_26;
        if self.w < s * s {
            return false;
        }
        let e = self.w - s * s;
        if TWO_TO_28 <= e {
            return false;
        }
        let n = e * TWO_TO_26 + s;
        let t = 2 * s * d;
        if n < t {
            return false;
        }
        let v = n - t;
        if TWO_TO_30 <= v {
            return false;
        }
        let a = v * TWO_TO_26 + d;
        if a <= d * d {
            return false;
        }
        a <= d * d + 2 * q
    }

    // The whole number nearest to √(w * 2^52). Each iteration takes two binary digits more of w * 2^52 and finds one of
    // the root: r is the whole root of those taken, e how much they are above r², and rest the digits of w to come.
    fn by_digits(self) -> u64
        ensures { Closest self.w result }
    {
        let mut r = 0;
        let mut e = 0;
        let mut rest = self.w;
        for _ in 0u32..53 {
            e = 4 * e + rest / TWO_TO_52;
            rest = rest % TWO_TO_52 * 4;
            r = 2 * r;
            if 2 * r < e {
                e = e - 2 * r - 1;
                r += 1;
            }
        }
        if r < e { r + 1 } else { r }
    }

    // The whole number nearest to √(w * 2^52), by an estimate q: where q is not nearest, a neighbour of it nearly always is.
    fn closest(self, q: u64) -> u64
        ensures { Closest self.w result }
    {
        let above = q.wrapping_add(1);
        if self.is_closest(above) {
            return above;
        }
        let below = q.wrapping_sub(1);
        if self.is_closest(below) {
            return below;
        }
        self.by_digits()
    }
}

// An estimate of the whole number nearest to √(w * 2^52), for the w of the normal x with pattern b: nearest for all but
// about 1 in 1,900, and no proof asks it to be. The index tells the interval of w, and u, in units of 2^-64, where in it w
// lies; h, h2 and h4 are u, u² and u⁴ in units of 2^-32. The table's polynomial is taken as
// c0 + (c1 + c5 u⁴) u - (c2 + c6 u⁴) u² + (c3 - c4 u) u³, where little waits for anything else.
fn estimate(b: u64) -> u64 {
    let p = root_table::polynomial_at(b / INDEX_STEP % INDICES);
    let u = b << DIGITS_ABOVE_REST;
    let u2 = pair::high(u, u);
    let u3 = pair::high(u2, u);
    let h = u >> HALF_WORD;
    let h2 = u2 >> HALF_WORD;
    let h4 = (h2 * h2) >> HALF_WORD;
    let t4 = ((p.c4 as u64) * h) >> HALF_WORD_OF_C4;
    let t5 = ((p.c5 as u64) * h4) >> HALF_WORD;
    let t6 = ((p.c6 as u64) * h4) >> HALF_WORD;
    let b1 = p.c1.wrapping_add(t5);
    let b2 = p.c2.wrapping_add(t6);
    let b3 = p.c3.wrapping_sub(t4);
    let near = pair::high(b1, u).wrapping_sub(pair::high(b2, u2));
    let far = p.c0.wrapping_add(pair::high(b3, u3));
    near.wrapping_add(far) >> DIGITS_BELOW_ROOT
}

// The root of the normal x above 0 with pattern b.
fn of_normal(b: u64) -> f64
    requires { (2 ^ 52 ≤ b) × (b < 0x7ff0_0000_0000_0000) }
    ensures { result ≡ sqrt (from_bits binary64 b) }
{
    let q = estimate(b);
    let k = (ROOT_BIAS + b / TWO_TO_52) / 2;
    let digits = Leading::of_pattern(b);
    if digits.is_closest(q) {
        return f64::from_bits(k * TWO_TO_52 + q);
    }
    f64::from_bits(k * TWO_TO_52 + digits.closest(q))
}

// The f64 nearest to √x. A zero is its own root, with its sign, and anything else below zero has none. A subnormal x
// with pattern b is b * 2^-1074, and its root √b times 2^-537. `of_normal` is called in one place, for both: so the
// compiler puts it in here, and a caller of `sqrt` holds a call and none of the tests.
pub fn sqrt(x: f64) -> f64
    ensures { result ≡ sqrt x }
{
    if x.is_nan() {
        return x;
    }
    let b = f64::to_bits(x);
    if INFINITY <= b {
        // +inf, -0 and all that is below zero
        if b <= SIGN {
            return x;
        }
        return f64::NAN;
    }
    let c = if b < TWO_TO_52 {
        if b == 0 {
            return x;
        }
        f64::to_bits(b as f64)
    } else {
        b
    };
    let r = of_normal(c);
    if b < TWO_TO_52 {
        r * f64::from_bits(LOWEST_ROOT)
    } else {
        r
    }
}
