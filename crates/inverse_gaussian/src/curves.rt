// The curves of the inverse Gaussian distribution with mean mu. A call of either is an evaluation: it takes one off the
// number allowed, whose field no other module can write to.
ghost use Rattle.std.specs.Prelude.{◌≡◌, OnErr};
ghost use Rattle.inverse_gaussian.specs.Counted.{limited, at_once, tick};
ghost use Rattle.inverse_gaussian.specs.Internal.Contracts.{evaluated};
ghost use Rattle.inverse_gaussian.specs.Internal.Searches.{metered, pdf_from, pdf_by_exponential, view_evaluation, view_survival_evaluation};
ghost use Rattle.inverse_gaussian.specs.Curves.{inverse_gaussian_survival, inverse_gaussian_cdf};

use arithmetic::basic::recip;
use arithmetic::constants::FRAC_1_SQRT_2;
use arithmetic::exp::exp;
use arithmetic::sqrt::sqrt;
use bs_option_price::normalised_black;
use special_function::error_function::erfcx_cody;
use special_function::normal_distribution::{norm_cdf, norm_pdf, norm_pdf_of_square};

// How many evaluations are still allowed.
#[derive(Drop)]
pub struct Allowance {
    left: u64,
}

// One evaluation more is needed than is allowed.
#[derive(Clone, Copy, Debug, PartialEq, Eq)]
pub struct Spent;

impl Allowance {
    pub fn new(left: u64) -> Allowance
        ensures { result.left ≡ left }
    {
        Allowance { left }
    }

    pub fn left(&self) -> u64
        ensures { result ≡ self.now.left }
    {
        self.left
    }

    // Takes one evaluation off.
    fn take(&mut self) -> Result<(), Spent>
        ensures metered { metered (λ x. x) result self.new.left ≡ limited self.old.left (tick (at_once tt)) }
        ensures spent { OnErr result (self.new.left ≡ 0) }
    {
        if self.left == 0 {
            return Err(Spent);
        }
        self.left -= 1;
        Ok(())
    }
}

// A value of the distribution, with what `pdf_by_exponential` makes the density at the same point of.
#[derive(Clone, Copy)]
pub struct Evaluation {
    pub value: f64,
    pub sqrt_x: f64,
    pub a: f64,
    pub exponential: f64,
}

// A value of the survival probability, with what `inverse_gaussian_pdf` makes the density at the same point of.
#[derive(Clone, Copy)]
pub struct SurvivalEvaluation {
    pub value: f64,
    pub sqrt_x: f64,
    pub a: f64,
}

pub fn inverse_gaussian_survival(
    x: f64,
    mu: f64,
    allowed: &mut Allowance,
) -> Result<SurvivalEvaluation, Spent>
    ensures metered { metered (view_survival_evaluation x) result allowed.new.left ≡ limited allowed.old.left (evaluated inverse_gaussian_survival x mu) }
    ensures spent { OnErr result (allowed.new.left ≡ 0) }
{
    allowed.take()?;
    let sqrt_x = sqrt(x);
    let inv_sqrt_x = recip(sqrt_x);
    let leading = sqrt_x / mu;
    let exponent = -recip(mu);
    // the Black price at these figures is the survival probability times exp(-1 / mu)
    let black = normalised_black(exponent, -leading, inv_sqrt_x);
    Ok(SurvivalEvaluation {
        value: black / exp(exponent),
        sqrt_x,
        a: leading - inv_sqrt_x,
    })
}

pub fn inverse_gaussian_cdf(x: f64, mu: f64, allowed: &mut Allowance) -> Result<Evaluation, Spent>
    ensures metered { metered (view_evaluation x) result allowed.new.left ≡ limited allowed.old.left (evaluated inverse_gaussian_cdf x mu) }
    ensures spent { OnErr result (allowed.new.left ≡ 0) }
{
    allowed.take()?;
    let sqrt_x = sqrt(x);
    let inv_sqrt_x = recip(sqrt_x);
    let leading = sqrt_x / mu;
    let a = leading - inv_sqrt_x;
    let reflected = leading + inv_sqrt_x;
    let exponential = exp(-0.5 * a * a);
    let value = norm_cdf(a) + 0.5 * exponential * erfcx_cody(reflected * FRAC_1_SQRT_2);
    Ok(Evaluation {
        value,
        sqrt_x,
        a,
        exponential,
    })
}

// The density at x, where a is √x / mu - 1 / √x.
pub fn inverse_gaussian_pdf(x: f64, sqrt_x: f64, a: f64) -> f64
    ensures { result ≡ pdf_from x sqrt_x a }
{
    norm_pdf(a * a) / (x * sqrt_x)
}

// The density at x where also exp(-0.5 * a * a) is at hand.
pub fn pdf_by_exponential(x: f64, sqrt_x: f64, a: f64, exponential: f64) -> f64
    ensures { result ≡ pdf_by_exponential x sqrt_x a exponential }
{
    norm_pdf_of_square(a, exponential) / (x * sqrt_x)
}
