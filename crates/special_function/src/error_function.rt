// Cody's error functions, and the inverse of erf.
ghost use Rattle.std.specs.Prelude.{◌≡◌};
ghost use Rattle.special_function.specs.ErrorFunction.{ab, cd, pq};
ghost use Rattle.special_function.specs.ErrorFunction.{smoothened_exponential_of_negative_square, smoothened_exponential_of_positive_square};
ghost use Rattle.special_function.specs.ErrorFunction.{erf_cody, erfc_above_threshold, erfc_cody, erfcx_cody_above_threshold, erfcx_cody};
ghost use Rattle.special_function.specs.Erfinv.{erfinv};

use crate::normal_distribution::{
    U_MAX, inverse_norm_cdf_for_low_probabilities,
    inverse_norm_cdfm_half_for_midrange_probabilities,
};
use crate::polynomial::evaluate;
use crate::power_table::power_at;
use arithmetic::basic::{abs, recip, signum, trunc};
use arithmetic::constants::{FRAC_1_SQRT_2, MAX};
use arithmetic::exp::{exp, exp_product};
use arithmetic::fused_multiply_add::mul_add2_sel;

const A: [f64; 5] = [
    3.161_123_743_870_565_6,
    113.864_154_151_050_156,
    377.485_237_685_302_021,
    3_209.377_589_138_469_47,
    0.185_777_706_184_603_153,
];

const B: [f64; 4] = [
    23.601_290_952_344_120_9,
    244.024_637_934_444_173,
    1_282.616_526_077_372_28,
    2_844.236_833_439_170_62,
];

#[tactic(auto, unfolding(crate::specs::ErrorFunction::ab))]
fn ab(z: f64) -> f64
    ensures { result ≡ ab z }
{
    evaluate(mul_add2_sel(z, A[4], A[0]), &A[1..4], z)
        / evaluate(mul_add2_sel(z, 1.0, B[0]), &B[1..4], z)
}

const C: [f64; 9] = [
    0.564_188_496_988_670_089,
    8.883_149_794_388_375_94,
    66.119_190_637_141_629_5,
    298.635_138_197_400_131,
    881.952_221_241_769_09,
    1_712.047_612_634_070_58,
    2_051.078_377_826_071_47,
    1_230.339_354_797_997_25,
    2.153_115_354_744_038_46E-8,
];

const D: [f64; 8] = [
    15.744_926_110_709_834_7,
    117.693_950_891_312_499,
    537.181_101_862_009_858,
    1_621.389_574_566_690_19,
    3_290.799_235_733_459_63,
    4_362.619_090_143_247_16,
    3_439.367_674_143_721_64,
    1_230.339_354_803_749_42,
];

#[tactic(auto, unfolding(crate::specs::ErrorFunction::cd))]
fn cd(y: f64) -> f64
    ensures { result ≡ cd y }
{
    evaluate(C[8], &C[0..8], y) / evaluate(y + D[0], &D[1..8], y)
}

const P: [f64; 6] = [
    0.305_326_634_961_232_344,
    0.360_344_899_949_804_439,
    0.125_781_726_111_229_246,
    0.016_083_785_148_742_276_6,
    6.587_491_615_298_378_03E-4,
    0.016_315_387_137_302_097_8,
];

const Q: [f64; 5] = [
    2.568_520_192_289_822_42,
    1.872_952_849_923_460_47,
    0.527_905_102_951_428_412,
    0.060_518_341_312_441_319_1,
    0.002_335_204_976_268_691_85,
];

#[tactic(auto, unfolding(crate::specs::ErrorFunction::pq))]
fn pq(z: f64) -> f64
    ensures { result ≡ pq z }
{
    z * evaluate(P[5], &P[0..5], z) / evaluate(z + Q[0], &Q[1..5], z)
}

// 3 * 2^47. A sum with this is rounded to a multiple of 1/16, which the last digits of its pattern count.
const SIXTEENTHS: f64 = 422212465065984.0;

// Up to here the table has the first exponential.
const TABLE_END: f64 = 2.75;

// y_tilde is y cut to a multiple of 1/16. By the sum it is the multiple nearest to y - 1/32; at an odd multiple of 1/16 that
// is a tie, which gives the one below y. There the second test fails.
#[tactic(auto, unfolding(crate::specs::ErrorFunction::smoothened_exponential_of_negative_square))]
fn smoothened_exponential_of_negative_square(y: f64) -> f64
    ensures { result ≡ smoothened_exponential_of_negative_square y }
{
    if (THRESHOLD < y) & (y < TABLE_END) {
        let t = y - 0.03125 + SIXTEENTHS;
        let y_tilde = t - SIXTEENTHS;
        let rest = y - y_tilde;
        if (y_tilde <= y) & (rest < 0.0625) {
            return power_at(f64::to_bits(t) % 64) * exp(-rest * (y + y_tilde));
        }
    }
    let y_tilde = trunc(y * 16.0) * 0.0625;
    exp_product(-(y_tilde * y_tilde), -(y - y_tilde) * (y + y_tilde))
}

#[tactic(auto, unfolding(crate::specs::ErrorFunction::smoothened_exponential_of_positive_square))]
fn smoothened_exponential_of_positive_square(x: f64) -> f64
    ensures { result ≡ smoothened_exponential_of_positive_square x }
{
    let x_tilde = trunc(x * 16.0) * 0.0625;
    exp_product(x_tilde * x_tilde, (x - x_tilde) * (x + x_tilde))
}

const THRESHOLD: f64 = 0.46875;

const XNEG: f64 = -26.628_735_713_751_4;

const XBIG: f64 = 26.543;

const ONE_OVER_SQRT_PI: f64 = 0.564_189_583_547_756_3;

#[tactic(auto, unfolding(crate::specs::ErrorFunction::erf_cody))]
pub fn erf_cody(x: f64) -> f64
    ensures { result ≡ erf_cody x }
{
    let y = abs(x);
    if y <= THRESHOLD {
        return x * ab(y * y);
    }
    if y >= XBIG {
        return signum(x);
    }
    let erfc_abs_x_over_exponential_of_negative_square = erfcx_cody_above_threshold(y);
    let exponential_of_negative_square = smoothened_exponential_of_negative_square(y);
    if x < 0.0 {
        mul_add2_sel(
            erfc_abs_x_over_exponential_of_negative_square,
            exponential_of_negative_square,
            -1.0,
        )
    } else {
        mul_add2_sel(
            erfc_abs_x_over_exponential_of_negative_square,
            -exponential_of_negative_square,
            1.0,
        )
    }
}

#[tactic(auto, unfolding(crate::specs::ErrorFunction::erfc_cody))]
pub fn erfc_cody(x: f64) -> f64
    ensures { result ≡ erfc_cody x }
{
    let y = abs(x);
    if y <= THRESHOLD {
        return mul_add2_sel(-ab(y * y), x, 1.0);
    }
    let erfc_abs_x = erfc_above_threshold(y);
    if x < 0.0 {
        2.0 - erfc_abs_x
    } else {
        erfc_abs_x
    }
}

// erfc(y) for y above the threshold, which `erfc_cody` takes at |x|.
#[tactic(auto, unfolding(crate::specs::ErrorFunction::erfc_above_threshold))]
fn erfc_above_threshold(y: f64) -> f64
    ensures { result ≡ erfc_above_threshold y }
{
    if y >= XBIG {
        return 0.0;
    }
    erfcx_cody_above_threshold(y) * smoothened_exponential_of_negative_square(y)
}

#[tactic(auto, unfolding(crate::specs::ErrorFunction::erfcx_cody_above_threshold))]
fn erfcx_cody_above_threshold(y: f64) -> f64
    ensures { result ≡ erfcx_cody_above_threshold y }
{
    if y <= 4.0 {
        cd(y)
    } else {
        (ONE_OVER_SQRT_PI - pq(recip(y * y))) / y
    }
}

#[tactic(auto, unfolding(crate::specs::ErrorFunction::erfcx_cody))]
pub fn erfcx_cody(x: f64) -> f64
    ensures { result ≡ erfcx_cody x }
{
    let y = abs(x);
    if y <= THRESHOLD {
        let z = y * y;
        return exp(z) * mul_add2_sel(-ab(z), x, 1.0);
    }
    if x < XNEG {
        return MAX;
    }
    let result = erfcx_cody_above_threshold(y);
    if x < 0.0 {
        let expx2 = smoothened_exponential_of_positive_square(x);
        mul_add2_sel(expx2, 2.0, -result)
    } else {
        result
    }
}

#[tactic(auto, unfolding(crate::specs::Erfinv::erfinv))]
pub fn erfinv(e: f64) -> f64
    ensures { result ≡ erfinv e }
{
    if abs(e) < 2.0 * U_MAX {
        return inverse_norm_cdfm_half_for_midrange_probabilities(0.5 * e) * FRAC_1_SQRT_2;
    }
    if e < 0.0 {
        inverse_norm_cdf_for_low_probabilities(mul_add2_sel(e, 0.5, 0.5)) * FRAC_1_SQRT_2
    } else {
        -inverse_norm_cdf_for_low_probabilities(mul_add2_sel(e, -0.5, 0.5)) * FRAC_1_SQRT_2
    }
}
