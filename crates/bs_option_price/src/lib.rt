// The normalised Black price and its three formulas, after bs_option_price.rs.
#![tactic(auto)]

mod table;

ghost use Rattle.std.specs.Prelude.{◌≡◌, ◌-◌, ◌<◌};
ghost use Rattle.bs_option_price.specs.Table.{a};
ghost use Rattle.bs_option_price.specs.BsOptionPrice.{normalised_black, is_region1, is_region2};
ghost use Rattle.bs_option_price.specs.BsOptionPrice.{asymptotic_expansion_of_scaled_normalised_black, position, term, tail, omega};
ghost use Rattle.bs_option_price.specs.BsOptionPrice.{small_t_expansion_of_scaled_normalised_black, b0, b1, b2, b, b3, b4, b5, b6};
ghost use Rattle.bs_option_price.specs.BsOptionPrice.{y_prime, y_prime_middle, y_prime_tail_expansion_rational_function_part_plus1};
ghost use Rattle.bs_option_price.specs.BsOptionPrice.{normalised_black_with_optimal_use_of_codys_functions};
ghost use Rattle.bs_option_price.specs.BsOptionPrice.{normalised_black_with_optimal_use_of_codys_functions_impl, two_b};
ghost use Rattle.bs_option_price.specs.BsOptionPrice.{normalised_vega, negative_abs_log_moneyness};

use arithmetic::basic::{is_infinite, max, min, recip};
use arithmetic::constants::{FRAC_1_SQRT_2, MIN_POSITIVE};
use arithmetic::exp::exp;
use arithmetic::fused_multiply_add::mul_add2_sel;
use arithmetic::ln::{ln, ln_1p};
use special_function::constants::{FRAC_1_SQRT_2_PI, SIXTEENTH_ROOT_DBL_EPSILON, SQRT_PI_OVER_2};
use special_function::error_function::{erfc_cody, erfcx_cody};
use special_function::polynomial::{RationalFunction, evaluate, nested};
use table::a;

#[tactic(auto, unfolding(crate::specs::BsOptionPrice::normalised_black))]
pub fn normalised_black(half_theta_x: f64, h: f64, t: f64) -> f64
    ensures { result ≡ normalised_black half_theta_x h t }
{
    if t == 0.0 || is_infinite(h) {
        return 0.0;
    }
    if is_region1(h, t) {
        asymptotic_expansion_of_scaled_normalised_black(h, t) * normalised_vega(h, t)
    } else if is_region2(h, t) {
        small_t_expansion_of_scaled_normalised_black(h, t) * normalised_vega(h, t)
    } else {
        normalised_black_with_optimal_use_of_codys_functions(half_theta_x, h, t)
    }
}

const ETA: f64 = -13.0;

#[tactic(auto, unfolding(crate::specs::BsOptionPrice::is_region1))]
fn is_region1(h: f64, t: f64) -> bool
    ensures { result ≡ is_region1 h t }
{
    h < ETA && t + h < TAU + 0.5 + ETA
}

#[tactic(auto, unfolding(crate::specs::BsOptionPrice::is_region2))]
fn is_region2(h: f64, t: f64) -> bool
    ensures { result ≡ is_region2 h t }
{
    mul_add2_sel(h, -0.5 / ETA, -TAU + t) < 0.0
}

const THRESHOLDS: [f64; 12] = [
    12.347, 12.958, 13.729, 14.718, 16.016, 17.769, 20.221, 23.816, 29.419, 38.93, 57.171, 99.347,
];

#[tactic(auto, unfolding(crate::specs::BsOptionPrice::asymptotic_expansion_of_scaled_normalised_black))]
fn asymptotic_expansion_of_scaled_normalised_black(h: f64, t: f64) -> f64
    ensures { result ≡ asymptotic_expansion_of_scaled_normalised_black h t }
{
    let t_over_h = t / h;
    let r = mul_add2_sel(t, -t, h * h);
    let h_over_r = h / r;
    let expansion = AsymptoticExpansion {
        q: h_over_r * h_over_r,
        e: t_over_h * t_over_h,
    };
    let idx = position(-h - t + TAU + 0.5);
    (t / r) * expansion.omega(expansion.tail(idx))
}

// The index of the first threshold above the value, or 12.
fn position(value: f64) -> usize
    ensures { result ≡ position value }
{
    THRESHOLDS
        .iter()
        .position(|threshold| value < *threshold)
        .unwrap_or(THRESHOLDS.len())
}

// The asymptotic expansion in q, whose coefficients are polynomials of e.
#[derive(Clone, Copy)]
struct AsymptoticExpansion {
    q: f64,
    e: f64,
}

impl AsymptoticExpansion {
    // One coefficient more, if the position is at most n.
    #[tactic(auto, unfolding(crate::specs::BsOptionPrice::term))]
    fn term(self, idx: usize, n: usize, omega: f64) -> f64
        requires { n < 12 }
        ensures { result ≡ term idx n omega self.q (a (16 - n) self.e) }
    {
        if idx <= n {
            mul_add2_sel(omega, self.q, a(16 - n, self.e))
        } else {
            omega
        }
    }

    // What the coefficients down to a5 add: a16 at position 0, one fewer at each position, none from 12 on.
    #[tactic(auto, using(crate::proofs::Expansion::next_term), unfolding(crate::specs::BsOptionPrice::tail, crate::specs::BsOptionPrice::omega_over_q))]
    fn tail(self, idx: usize) -> f64
        ensures { result ≡ tail idx self.q self.e }
    {
        if idx >= THRESHOLDS.len() {
            return 0.0;
        }
        let omega = self.term(idx, 0, 0.0);
        let omega = self.term(idx, 1, omega);
        let omega = self.term(idx, 2, omega);
        let omega = self.term(idx, 3, omega);
        let omega = self.term(idx, 4, omega);
        let omega = self.term(idx, 5, omega);
        let omega = self.term(idx, 6, omega);
        let omega = self.term(idx, 7, omega);
        let omega = self.term(idx, 8, omega);
        let omega = self.term(idx, 9, omega);
        let omega = self.term(idx, 10, omega);
        let omega = self.term(idx, 11, omega);
        self.q * omega
    }

    #[tactic(auto, unfolding(crate::specs::BsOptionPrice::omega))]
    fn omega(self, tail: f64) -> f64
        ensures { result ≡ omega tail self.q self.e }
    {
        let e = self.e;
        nested(
            self.q,
            &[a(4, e) + tail, a(3, e), a(2, e), a(1, e), a(0, e)],
        )
    }
}

#[tactic(auto, unfolding(crate::specs::BsOptionPrice::small_t_expansion_of_scaled_normalised_black))]
fn small_t_expansion_of_scaled_normalised_black(h: f64, t: f64) -> f64
    ensures { result ≡ small_t_expansion_of_scaled_normalised_black h t }
{
    let a = y_prime(h);
    let h2 = h * h;
    let t2 = t * t;
    nested(
        t2,
        &[
            b6(a, h2),
            b5(a, h2),
            b4(a, h2),
            b3(a, h2),
            b2(a, h2),
            b1(a, h2),
            b0(a),
        ],
    ) * t
}

fn b0(a: f64) -> f64
    ensures { result ≡ b0 a }
{
    2.0 * a
}

#[tactic(auto, unfolding(crate::specs::BsOptionPrice::b1))]
fn b1(a: f64, h2: f64) -> f64
    ensures { result ≡ b1 a h2 }
{
    mul_add2_sel(a, 3.0 + h2, -1.0) / 3.0
}

#[tactic(auto, unfolding(crate::specs::BsOptionPrice::b2, crate::specs::BsOptionPrice::b, special_function::specs::Polynomial::nested, special_function::specs::Polynomial::evaluate))]
fn b2(a: f64, h2: f64) -> f64
    ensures { result ≡ b2 a h2 }
{
    b(a, h2, &[10.0 + h2, 15.0], &[-7.0 - h2], 60.0)
}

// What b2 to b6 share: a polynomial of h2 times a, plus another, over a divisor.
#[tactic(auto, unfolding(crate::specs::BsOptionPrice::b))]
fn b(a: f64, h2: f64, factor: &[f64], rest: &[f64], divisor: f64) -> f64
    ensures { result ≡ b a h2 factor.now rest.now divisor }
{
    mul_add2_sel(nested(h2, factor), a, nested(h2, rest)) / divisor
}

fn b3(a: f64, h2: f64) -> f64
    ensures { result ≡ b3 a h2 }
{
    b(
        a,
        h2,
        &[21.0 + h2, 105.0, 105.0],
        &[-18.0 - h2, -57.0],
        2520.0,
    )
}

fn b4(a: f64, h2: f64) -> f64
    ensures { result ≡ b4 a h2 }
{
    b(
        a,
        h2,
        &[36.0 + h2, 378.0, 1260.0, 945.0],
        &[-33.0 - h2, -285.0, -561.0],
        181_440.0,
    )
}

fn b5(a: f64, h2: f64) -> f64
    ensures { result ≡ b5 a h2 }
{
    b(
        a,
        h2,
        &[55.0 + h2, 990.0, 6930.0, 17325.0, 10395.0],
        &[-52.0 - h2, -840.0, -4680.0, -6555.0],
        19_958_400.0,
    )
}

fn b6(a: f64, h2: f64) -> f64
    ensures { result ≡ b6 a h2 }
{
    b(
        a,
        h2,
        &[78.0 + h2, 2145.0, 25740.0, 135_135.0, 270_270.0, 135_135.0],
        &[-75.0 - h2, -1926.0, -20370.0, -82845.0, -89055.0],
        3_113_510_400.0,
    )
}

#[tactic(auto, unfolding(crate::specs::BsOptionPrice::y_prime))]
fn y_prime(h: f64) -> f64
    ensures { result ≡ y_prime h }
{
    if h < -4.0 {
        let w = recip(h * h);
        w * y_prime_tail_expansion_rational_function_part_plus_1(w)
    } else if h <= -0.46875 {
        y_prime_middle(h)
    } else {
        mul_add2_sel(erfcx_cody(-FRAC_1_SQRT_2 * h), h * SQRT_PI_OVER_2, 1.0)
    }
}

// The source's quotient for h from -4 to -0.46875. Its first products are by h, the others by -h.
#[tactic(auto, unfolding(crate::specs::BsOptionPrice::y_prime_middle))]
fn y_prime_middle(h: f64) -> f64
    ensures { result ≡ y_prime_middle h }
{
    evaluate(
        mul_add2_sel(h, 8.459_243_640_658_06E-10, 4.276_659_783_590_871_4E-8),
        &[
            3.071_739_227_491_390_3E-4,
            5.545_521_007_735_379_5E-3,
            4.565_090_035_135_299E-2,
            2.218_084_473_657_601_4E-1,
            6.191_144_987_969_411E-1,
            1.000_000_000_059_431_8,
        ],
        -h,
    ) / evaluate(
        mul_add2_sel(h, -3.082_202_041_792_714_7E-4, 5.529_045_357_693_659E-3),
        &[
            4.676_254_890_319_496E-2,
            2.367_770_140_309_464E-1,
            7.657_648_983_658_903E-1,
            1.568_549_723_607_765_2,
            1.872_428_636_958_916_3,
            1.0,
        ],
        -h,
    )
}

const Y_PRIME_TAIL: RationalFunction<6, 7> = RationalFunction {
    numerator: [
        -6.681_824_903_261_685E4,
        -8.383_602_146_074_198E4,
        -2.780_574_569_386_430_8E4,
        -3.473_503_544_549_563_2E3,
        -1.755_626_332_354_220_6E2,
        -2.999_999_999_999_466,
    ],
    denominator: [
        6.928_651_867_980_375E4,
        1.256_997_038_092_390_9E5,
        6.688_679_416_565_168E4,
        1.456_254_563_850_703_4E4,
        1.440_438_903_760_433_7E3,
        6.352_087_774_483_173_6E1,
        1.0,
    ],
};

fn y_prime_tail_expansion_rational_function_part_plus_1(w: f64) -> f64
    ensures { result ≡ y_prime_tail_expansion_rational_function_part_plus1 w }
{
    mul_add2_sel(Y_PRIME_TAIL.at(w), w, 1.0)
}

const TAU: f64 = 2.0 * SIXTEENTH_ROOT_DBL_EPSILON;

#[tactic(auto, unfolding(crate::specs::BsOptionPrice::normalised_black_with_optimal_use_of_codys_functions))]
fn normalised_black_with_optimal_use_of_codys_functions(half_theta_x: f64, h: f64, t: f64) -> f64
    ensures { result ≡ normalised_black_with_optimal_use_of_codys_functions half_theta_x h t }
{
    let exp_neg_q = exp(-0.5 * mul_add2_sel(t, t, h * h));
    normalised_black_with_optimal_use_of_codys_functions_impl(half_theta_x, h, t, exp_neg_q)
}

#[tactic(auto, unfolding(crate::specs::BsOptionPrice::normalised_black_with_optimal_use_of_codys_functions_impl))]
fn normalised_black_with_optimal_use_of_codys_functions_impl(
    half_theta_x: f64,
    h: f64,
    t: f64,
    exp_neg_q: f64,
) -> f64
    ensures { result ≡ normalised_black_with_optimal_use_of_codys_functions_impl half_theta_x h t exp_neg_q }
{
    let q1 = -FRAC_1_SQRT_2 * (h + t);
    let q2 = -FRAC_1_SQRT_2 * (h - t);
    max(0.5 * two_b(half_theta_x, q1, q2, exp_neg_q), 0.0)
}

const CODYS_THRESHOLD: f64 = 0.46875;

// Twice the price: q1 and q2 choose between erfc and erfcx, each on its side of the threshold.
#[tactic(auto, unfolding(crate::specs::BsOptionPrice::two_b))]
fn two_b(half_theta_x: f64, q1: f64, q2: f64, exp_neg_q: f64) -> f64
    ensures { result ≡ two_b half_theta_x q1 q2 exp_neg_q }
{
    if q1 < CODYS_THRESHOLD {
        if q2 < CODYS_THRESHOLD {
            mul_add2_sel(
                exp(half_theta_x),
                erfc_cody(q1),
                -(exp(-half_theta_x) * erfc_cody(q2)),
            )
        } else {
            mul_add2_sel(
                exp(half_theta_x),
                erfc_cody(q1),
                -(exp_neg_q * erfcx_cody(q2)),
            )
        }
    } else if q2 < CODYS_THRESHOLD {
        mul_add2_sel(
            exp_neg_q,
            erfcx_cody(q1),
            -(exp(-half_theta_x) * erfc_cody(q2)),
        )
    } else {
        exp_neg_q * (erfcx_cody(q1) - erfcx_cody(q2))
    }
}

#[tactic(auto, unfolding(crate::specs::BsOptionPrice::normalised_vega))]
pub fn normalised_vega(h: f64, t: f64) -> f64
    ensures { result ≡ normalised_vega h t }
{
    FRAC_1_SQRT_2_PI * exp(-0.5 * mul_add2_sel(t, t, h * h))
}

#[tactic(auto, unfolding(crate::specs::BsOptionPrice::negative_abs_log_moneyness))]
pub fn negative_abs_log_moneyness(f: f64, k: f64) -> f64
    ensures { result ≡ negative_abs_log_moneyness f k }
{
    let smaller = min(f, k);
    let larger = max(f, k);
    if smaller >= 0.5 * larger {
        // the difference is exact here
        -ln_1p((larger - smaller) / smaller)
    } else {
        let ratio = smaller / larger;
        if ratio >= MIN_POSITIVE {
            ln(ratio)
        } else {
            // the ratio may have lost digits, or be 0
            ln(smaller) - ln(larger)
        }
    }
}
