// The quantile by Newton steps on the standardised variable x / mu.
ghost use Rattle.std.specs.Prelude.{◌≡◌, OnErr};
ghost use Rattle.inverse_gaussian.specs.Counted.{limited, at_once, tick};
ghost use Rattle.inverse_gaussian.specs.Loops.{go};
ghost use Rattle.inverse_gaussian.specs.Internal.Searches.{metered, view_newton, view_option, view_flow, step_at};
ghost use Rattle.inverse_gaussian.specs.Newton.{seed, initial_x, numerator, nrstep, converged, after_move, first, later, steps};
ghost use Rattle.inverse_gaussian.specs.Newton.{inverse_gaussian_mode_standardized, inverse_gaussian_quantile_actuar};

use crate::curves::{Allowance, Spent, inverse_gaussian_cdf};
use crate::initial_guess::{inverse_gaussian_quantile_initial_guess, is_finite_positive};
use crate::search::Curve;
use arithmetic::basic::{abs, max, recip, signum};
use arithmetic::constants::MIN_POSITIVE;
use arithmetic::exp::exp;
use arithmetic::ln::{ln, plus_ln_1p};
use arithmetic::sqrt::sqrt;
use special_function::normal_distribution::inverse_norm_cdf;
use std::ops::ControlFlow;

const ACTUAR_RELATIVE_QUANTILE_TOLERANCE: f64 = 1.0e-14;

const LARGE_KAPPA_THRESHOLD: f64 = 1.0e3;

const LEFT_SMALL_PROBABILITY_LOG_THRESHOLD: f64 = -11.51;

const RIGHT_SMALL_PROBABILITY_LOG_THRESHOLD: f64 = -1.0e-5;

// After a step: the root; none, where the step was refused or left the values that are finite and above 0;
// or the point of the next step, with the direction of the first move.
pub type Stepped = ControlFlow<Option<f64>, (f64, f64)>;

// A relative tolerance: an absolute one would accept a first step far from a small root.
#[tactic(auto, unfolding(crate::specs::Newton::converged))]
fn is_converged(dx: f64, x: f64) -> bool
    ensures { result ≡ converged dx x }
{
    abs(dx) / x <= ACTUAR_RELATIVE_QUANTILE_TOLERANCE
}

// x is the point after the move dx: no root where it is not finite and above 0, the root where the move was small.
#[tactic(auto, unfolding(crate::specs::Newton::after_move))]
fn after_move(x: f64, dx: f64, direction: f64, mu: f64) -> Stepped
    ensures { view_flow view_option result ≡ after_move mu x dx direction }
{
    if is_finite_positive(x) {
        if is_converged(dx, x) {
            return ControlFlow::Break(Some(x * mu));
        }
        return ControlFlow::Continue((x, direction));
    }
    ControlFlow::Break(None)
}

// A Newton step: a move, perhaps infinite, or the refusal to move where the density cannot be divided by.
#[derive(Clone, Copy)]
pub enum Newton {
    Move(f64),
    Refused,
}

impl Newton {
    // After the first step, made at x, whose sign the later ones keep.
    #[tactic(auto, unfolding(crate::specs::Newton::first))]
    pub fn first(self, x: f64, mu: f64) -> Stepped
        ensures { view_flow view_option result ≡ first mu x (view_newton self) }
    {
        match self {
            Newton::Move(dx) => after_move(x + dx, dx, signum(dx), mu),
            Newton::Refused => ControlFlow::Break(None),
        }
    }

    // After a later step, made at x: one against the direction of the first is not taken, and x is the root.
    #[tactic(auto, unfolding(crate::specs::Newton::later))]
    pub fn later(self, x: f64, direction: f64, mu: f64) -> Stepped
        ensures { view_flow view_option result ≡ later mu x direction (view_newton self) }
    {
        match self {
            Newton::Move(dx) if dx * direction < 0.0 => ControlFlow::Break(Some(x * mu)),
            Newton::Move(dx) => after_move(x + dx, dx, direction, mu),
            Newton::Refused => ControlFlow::Break(None),
        }
    }
}

// The steps to the point, divided by mu, where the distribution with mean mu has the probability.
#[derive(Clone, Copy)]
struct Steps {
    probability: f64,
    log_probability: f64,
    mu: f64,
}

impl Steps {
    // The mode; in the far left tail and in the far right one a guess for that tail.
    #[tactic(auto, unfolding(crate::specs::Newton::seed))]
    fn seed(self) -> f64
        ensures { result ≡ seed self.probability self.log_probability self.mu }
    {
        if self.log_probability < LEFT_SMALL_PROBABILITY_LOG_THRESHOLD {
            let z = inverse_norm_cdf(self.probability);
            return 1.0 / (self.mu * z * z);
        }
        let mode = inverse_gaussian_mode_standardized(self.mu);
        if self.log_probability > RIGHT_SMALL_PROBABILITY_LOG_THRESHOLD {
            let guess = inverse_gaussian_quantile_initial_guess(self.probability, self.mu);
            return max(guess / self.mu, mode);
        }
        mode
    }

    // Where the steps start: the seed; where that is not finite and above 0 the mode, or the smallest normal value
    // if that is larger.
    #[tactic(auto, unfolding(crate::specs::Newton::initial_x))]
    fn initial_x(self) -> f64
        ensures { result ≡ initial_x self.probability self.log_probability self.mu }
    {
        let x = self.seed();
        if is_finite_positive(x) {
            return x;
        }
        max(inverse_gaussian_mode_standardized(self.mu), MIN_POSITIVE)
    }

    // The error of `cdf`, by logarithms where it is close to the probability.
    #[tactic(auto, unfolding(crate::specs::Newton::numerator))]
    fn numerator(self, cdf: f64) -> f64
        ensures { result ≡ numerator cdf self.probability self.log_probability }
    {
        if cdf > 0.0 {
            let delta_log_probability = self.log_probability - ln(cdf);
            if abs(delta_log_probability) < 1.0e-5 {
                return delta_log_probability
                    * exp(plus_ln_1p(self.log_probability, -0.5 * delta_log_probability));
            }
            return self.probability - cdf;
        }
        self.probability
    }

    // The step at x, after one evaluation there: inlined, since a call in the loop costs a fiftieth of a quantile.
    #[inline(always)]
    fn step_at(self, x: f64, allowed: &mut Allowance) -> Result<Newton, Spent>
        ensures metered { metered view_newton result allowed.new.left
            ≡ limited allowed.old.left (tick (at_once (step_at x self.probability self.log_probability self.mu))) }
        ensures spent { OnErr result (allowed.new.left ≡ 0) }
    {
        let evaluation = inverse_gaussian_cdf(x * self.mu, self.mu, allowed)?;
        let error = self.numerator(evaluation.value);
        Ok(nrstep(self.mu * evaluation.density(x * self.mu), error))
    }

    // The steps after the first, of which there are at most 99; after the last its point is the root.
    fn after_first(self, begin: (f64, f64), allowed: &mut Allowance) -> Result<Option<f64>, Spent>
        ensures metered { metered view_option result allowed.new.left
            ≡ limited allowed.old.left (steps self.probability self.log_probability self.mu (go begin)) }
        ensures spent { OnErr result (allowed.new.left ≡ 0) }
    {
        let (mut x, mut direction) = begin;
        for _ in 1u32..100 {
            let step = self.step_at(x, allowed)?;
            match step.later(x, direction, self.mu) {
                ControlFlow::Break(root) => return Ok(root),
                ControlFlow::Continue(next) => (x, direction) = next,
            }
        }
        Ok(Some(x * self.mu))
    }
}

pub fn inverse_gaussian_quantile_actuar(
    probability: f64,
    mu: f64,
    allowed: &mut Allowance,
) -> Result<Option<f64>, Spent>
    ensures metered { metered view_option result allowed.new.left ≡ limited allowed.old.left (inverse_gaussian_quantile_actuar probability mu) }
    ensures spent { OnErr result (allowed.new.left ≡ 0) }
{
    let steps = Steps {
        probability,
        log_probability: ln(probability),
        mu,
    };
    let x = steps.initial_x();
    match steps.step_at(x, allowed)?.first(x, mu) {
        ControlFlow::Break(root) => Ok(root),
        ControlFlow::Continue(next) => steps.after_first(next, allowed),
    }
}

#[tactic(auto, unfolding(crate::specs::Newton::inverse_gaussian_mode_standardized))]
pub fn inverse_gaussian_mode_standardized(phi: f64) -> f64
    ensures { result ≡ inverse_gaussian_mode_standardized phi }
{
    let kappa = 1.5 * phi;
    if kappa <= LARGE_KAPPA_THRESHOLD {
        // the conjugate form: sqrt(1 + kappa^2) - kappa would lose digits
        return recip(sqrt(1.0 + kappa * kappa) + kappa);
    }
    let reciprocal = 0.5 / kappa;
    reciprocal * (1.0 - reciprocal * reciprocal)
}

// The step that would bring `error` to 0 where the density is `pdf`.
#[tactic(auto, unfolding(crate::specs::Newton::nrstep))]
pub fn nrstep(pdf: f64, error: f64) -> Newton
    ensures { view_newton result ≡ nrstep pdf error }
{
    if is_finite_positive(pdf) {
        return Newton::Move(error / pdf);
    }
    Newton::Refused
}
