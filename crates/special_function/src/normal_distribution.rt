// The normal distribution: density, cumulative probability and its inverse.
ghost use Rattle.std.specs.Prelude.{◌≡◌};
ghost use Rattle.special_function.specs.Internal.SharedExponential.{same, norm_pdf_of_square};
ghost use Rattle.special_function.specs.NormalDistribution.{norm_pdf, next, goes_on, asymptotic_sum, norm_cdf};
ghost use Rattle.special_function.specs.NormalDistribution.{inverse_norm_cdfm_half_for_midrange_probabilities};
ghost use Rattle.special_function.specs.NormalDistribution.{inverse_norm_cdf_for_low_probabilities, inverse_norm_cdf};

use crate::constants::FRAC_1_SQRT_2_PI;
use crate::error_function::erfc_cody;
use crate::polynomial::RationalFunction;
use arithmetic::basic::abs;
use arithmetic::constants::{EPSILON, FRAC_1_SQRT_2, MAX};
use arithmetic::exp::exp;
use arithmetic::fused_multiply_add::mul_add2_sel;
use arithmetic::ln::ln;
use arithmetic::sqrt::sqrt;

// The density at x, x2 being x².
#[tactic(auto, unfolding(crate::specs::NormalDistribution::norm_pdf))]
pub fn norm_pdf(x2: f64) -> f64
    ensures { result ≡ norm_pdf x2 }
{
    FRAC_1_SQRT_2_PI * exp(-0.5 * x2)
}

// Equal numbers with equal bits.
#[tactic(auto, using(crate::specs::Laws::SharedExponential::equal_numbers))]
fn is_same(x: f64, y: f64) -> bool
    ensures { result ≡ same x y }
{
    x == y && x.to_bits() == y.to_bits()
}

// norm_pdf(a * a) for a caller that has exp(-0.5 * a * a), which is used where its argument is the number -0.5 * (a * a):
// that can fail only where a product underflows or overflows, and for a NaN.
#[tactic(auto, unfolding(crate::specs::Internal::SharedExponential::norm_pdf_of_square))]
pub fn norm_pdf_of_square(a: f64, exponential: f64) -> f64
    ensures { result ≡ norm_pdf_of_square a exponential }
{
    if is_same(-0.5 * (a * a), -0.5 * a * a) {
        return FRAC_1_SQRT_2_PI * exponential;
    }
    norm_pdf(a * a)
}

// The variables of the loop that sums the asymptotic expansion of `norm_cdf`, by the source's names: the sum; the product g
// of the factors so far; the counter i, which goes by four from 4; and the magnitude a of what the last iteration took off.
#[derive(Clone, Copy)]
struct Expansion {
    pub sum: f64,
    pub g: f64,
    pub i: f64,
    pub a: f64,
}

impl Expansion {
    // One iteration takes two terms of the series, of opposite signs, off the sum as one difference.
    #[tactic(auto, unfolding(crate::specs::NormalDistribution::next))]
    fn next(self, zsqr: f64) -> Expansion
        ensures { result ≡ next zsqr self }
    {
        let x = (self.i - 3.0) / zsqr;
        let y = x * ((self.i - 1.0) / zsqr);
        let a = self.g * (x - y);
        Expansion {
            sum: self.sum - a,
            g: self.g * y,
            i: self.i + 4.0,
            a: abs(a),
        }
    }

    // What was taken off is smaller than in the iteration before, and still counts in the sum.
    #[tactic(auto, unfolding(crate::specs::NormalDistribution::goes_on))]
    fn goes_on(self, lasta: f64) -> bool
        ensures { result ≡ goes_on lasta self }
    {
        lasta > self.a && self.a >= abs(self.sum * EPSILON)
    }
}

// The sum after the first iteration whose terms no longer fall, or no longer count.
#[tactic(auto, using(crate::proofs::AsymptoticSum::magnitude_falls, crate::proofs::AsymptoticSum::sum_at_stop))]
fn asymptotic_sum(zsqr: f64) -> f64
    ensures { result ≡ asymptotic_sum zsqr }
{
    let mut s = Expansion {
        sum: 1.0,
        g: 1.0,
        i: 4.0,
        a: MAX,
    };
    loop {
        let last = s;
        s = last.next(zsqr);
        if !s.goes_on(last.a) {
            return s.sum;
        }
    }
}

const NORM_CDF_ASYMPTOTIC_EXPANSION_FIRST_THRESHOLD: f64 = -10.0;

const NORM_CDF_ASYMPTOTIC_EXPANSION_SECOND_THRESHOLD: f64 = -67_108_864.0;

#[tactic(auto, unfolding(crate::specs::NormalDistribution::norm_cdf))]
pub fn norm_cdf(z: f64) -> f64
    ensures { result ≡ norm_cdf z }
{
    if z <= NORM_CDF_ASYMPTOTIC_EXPANSION_FIRST_THRESHOLD {
        if z >= NORM_CDF_ASYMPTOTIC_EXPANSION_SECOND_THRESHOLD {
            let zsqr = z * z;
            return -norm_pdf(zsqr) * asymptotic_sum(zsqr) / z;
        }
        return -norm_pdf(z * z) / z;
    }
    0.5 * erfc_cody(-z * FRAC_1_SQRT_2)
}

pub const U_MAX: f64 = 0.341_344_746_068_542_9;

const U_MAX2: f64 = U_MAX * U_MAX;

const MIDRANGE: RationalFunction<7, 6> = RationalFunction {
    numerator: [
        -7.589_398_814_012_592_5,
        1.342_332_435_026_538_6E2,
        6.904_892_420_614_086E2,
        7.499_778_145_665_792E2,
        3.018_705_419_229_339E2,
        5.026_057_216_730_31E1,
        2.929_589_546_983_088,
    ],
    denominator: [
        1.792_270_085_081_026E2,
        4.791_239_145_097_567_3E2,
        3.868_212_085_404_174_4E2,
        1.294_041_204_487_553E2,
        1.891_853_807_457_46E1,
        1.0,
    ],
};

pub fn inverse_norm_cdfm_half_for_midrange_probabilities(u: f64) -> f64
    ensures { result ≡ inverse_norm_cdfm_half_for_midrange_probabilities u }
{
    let s = mul_add2_sel(u, -u, U_MAX2);
    u * MIDRANGE.at(s)
}

// Numerators and denominators for r below 2.05, 3.41, 6.7, 12.9, and from there on.
const TAIL_I: RationalFunction<6, 6> = RationalFunction {
    numerator: [
        -13.054_072_340_494_093,
        -83.383_894_003_636_97,
        -74.594_687_726_045_93,
        65.451_292_110_261_45,
        47.170_590_600_740_69,
        3.691_562_302_945_566,
    ],
    denominator: [
        0.000_182_951_748_520_535_3,
        9.221_688_797_873_743,
        59.270_122_556_046_076,
        71.813_812_182_579_26,
        20.837_211_328_697_755,
        1.0,
    ],
};

const TAIL_II: RationalFunction<6, 6> = RationalFunction {
    numerator: [
        -1.201_314_787_943_552_6,
        -10.059_163_395_686_461,
        -18.125_442_779_178_92,
        0.683_973_702_565_915_3,
        14.491_778_286_891_22,
        3.234_017_911_631_797,
    ],
    denominator: [
        0.000_010_957_576_098_829_594,
        0.848_848_921_991_492_5,
        7.136_981_105_610_977,
        14.656_370_665_176_8,
        8.882_093_177_330_434,
        1.0,
    ],
};

const TAIL_III: RationalFunction<6, 6> = RationalFunction {
    numerator: [
        -1.541_431_949_401_359_8E-1,
        -2.869_906_133_588_252_8,
        -1.107_053_468_930_936_7E1,
        -5.163_392_911_552_553,
        9.948_372_431_703_657,
        3.125_223_578_008_758_3,
    ],
    denominator: [
        1.356_598_356_444_129_7E-7,
        1.089_797_223_413_183E-1,
        2.030_707_606_430_904,
        8.108_634_112_236_153,
        7.076_769_154_309_171,
        1.0,
    ],
};

const TAIL_IV: RationalFunction<6, 6> = RationalFunction {
    numerator: [
        -0.016_123_033_183_901_45,
        -0.475_951_695_467_832_17,
        -2.964_425_135_315_060_4,
        -3.688_196_041_019_692,
        2.250_881_388_987_032,
        2.616_126_495_089_728_3,
    ],
    denominator: [
        0.000_000_003_084_809_357_096_678_6,
        0.011_400_087_282_177_594,
        0.336_637_464_056_264,
        2.128_203_027_215_319,
        3.251_745_516_903_592,
        1.0,
    ],
};

const TAIL_V: RationalFunction<6, 6> = RationalFunction {
    numerator: [
        -0.001_056_635_772_720_258_4,
        -0.065_127_593_753_781_67,
        -0.863_851_812_192_137_6,
        -2.589_445_156_846_573,
        -0.042_799_650_734_502_09,
        2.322_684_904_787_23,
    ],
    denominator: [
        0.000_000_000_023_135_343_206_304_888,
        0.000_747_144_799_216_722_6,
        0.046_054_974_512_474_44,
        0.613_208_413_291_975,
        1.936_131_611_925_441_3,
        1.0,
    ],
};

#[tactic(auto, unfolding(crate::specs::NormalDistribution::inverse_norm_cdf_for_low_probabilities))]
pub fn inverse_norm_cdf_for_low_probabilities(p: f64) -> f64
    ensures { result ≡ inverse_norm_cdf_for_low_probabilities p }
{
    let r = sqrt(-ln(p));
    if r < 2.05 {
        TAIL_I.at(r)
    } else if r < 3.41 {
        TAIL_II.at(r)
    } else if r < 6.7 {
        TAIL_III.at(r)
    } else if r < 12.9 {
        TAIL_IV.at(r)
    } else {
        TAIL_V.at(r)
    }
}

#[tactic(auto, unfolding(crate::specs::NormalDistribution::inverse_norm_cdf))]
pub fn inverse_norm_cdf(p: f64) -> f64
    ensures { result ≡ inverse_norm_cdf p }
{
    let u = p - 0.5;
    if abs(u) < U_MAX {
        return inverse_norm_cdfm_half_for_midrange_probabilities(u);
    }
    if u > 0.0 {
        -inverse_norm_cdf_for_low_probabilities(1.0 - p)
    } else {
        inverse_norm_cdf_for_low_probabilities(p)
    }
}
