// A search for the root of either curve: a bracket of it by doubling or by halving, and the iterations in the bracket.
ghost use Rattle.std.specs.Prelude.{◌≡◌, true, OnErr};
ghost use Rattle.inverse_gaussian.specs.Counted.{limited};
ghost use Rattle.inverse_gaussian.specs.Curves.{finite_positive};
ghost use Rattle.inverse_gaussian.specs.Internal.Searches.{metered, view_option};
ghost use Rattle.inverse_gaussian.specs.Internal.Bracketed.{upward, downward, bracket_beside, narrowing, root_from};

use crate::bracket::{Bracket, bracket_midpoint};
use crate::curves::{Allowance, Spent};
use std::ops::ControlFlow;

// A value of a curve, and what a search for the point where the curve has a probability makes of it.
pub trait Curve: Copy {
    ghost use Rattle.std.specs.Prelude.{◌≡◌, true, OnErr, Float};
    ghost use Rattle.inverse_gaussian.specs.Counted.{limited, sample};
    ghost use Rattle.inverse_gaussian.specs.Curves.{finite_positive};
    ghost use Rattle.inverse_gaussian.specs.Internal.Contracts.{evaluated};
    ghost use Rattle.inverse_gaussian.specs.Internal.Searches.{metered, view_option, view_flow};
    ghost use Rattle.inverse_gaussian.specs.Internal.Bracketed.{Rules, UpwardEnds, DownwardEnds};

    ghost rules: { Rules };

    ghost value_of: { Self → Float };

    ghost density_at: { Float → Self → Float };

    // The curve at x.
    fn evaluate(x: f64, mu: f64, allowed: &mut Allowance) -> Result<Self, Spent>
        ensures metered { metered (λ e. sample (value_of e) (density_at x e)) result allowed.new.left ≡ limited allowed.old.left (evaluated rules.curve x mu) }
        ensures spent { OnErr result (allowed.new.left ≡ 0) };

    fn value(self) -> f64
        ensures { result ≡ value_of self };

    // The density of the distribution at x, where this is the curve's value.
    fn density(self, x: f64) -> f64
        ensures { result ≡ density_at x self };

    // Whether the root is above the point where the curve has this value.
    fn root_is_above(value: f64, probability: f64) -> bool
        ensures { result ≡ rules.above probability value };

    // The bracket above x with which the doubling starts.
    fn bracket_from(x: f64) -> Bracket
        ensures { result ≡ rules.from x };

    // By the value at the upper bound: the bracket is found, or there is none, or a wider one is tried.
    fn widened(
        bracket: Bracket,
        value: f64,
        probability: f64,
    ) -> ControlFlow<Option<Bracket>, Bracket>
        ensures { view_flow view_option result ≡ rules.widened probability bracket value };

    // By the value at the lower bound: the bracket is found, or a lower one is tried.
    fn lowered(bracket: Bracket, value: f64, probability: f64) -> ControlFlow<Bracket, Bracket>
        ensures { view_flow (λ b. b) result ≡ rules.lowered probability bracket value };

    // Where in the bracket the iterations start.
    fn begin(bracket: Bracket, x: f64) -> f64
        ensures { result ≡ rules.begin bracket x };

    // One iteration, by the value and the density at x: the root, or a narrower bracket with the next point.
    fn iteration(
        bracket: Bracket,
        x: f64,
        value: f64,
        pdf: f64,
        probability: f64,
    ) -> ControlFlow<f64, (Bracket, f64)>
        ensures { view_flow (λ r. r) result ≡ rules.iteration pdf probability (bracket, x) value };

    ghost upward_ends: { UpwardEnds rules };

    ghost downward_ends: { DownwardEnds rules };
}

// A search, from the point where it starts, for that where a curve of the distribution with mean mu has the probability.
#[derive(Clone, Copy)]
pub(crate) struct Search {
    pub(crate) start: f64,
    pub(crate) mu: f64,
    pub(crate) probability: f64,
    ghost start_is_positive: { finite_positive start ≡ true },
}

impl Search {
    // Doubles from the start until the root is no longer above the bracket.
    fn bracket_quantile_from_below<C: Curve>(
        self,
        allowed: &mut Allowance,
    ) -> Result<Option<Bracket>, Spent>
        ensures metered { metered view_option result allowed.new.left ≡ limited allowed.old.left (upward C.rules self.start self.mu self.probability) }
        ensures spent { OnErr result (allowed.new.left ≡ 0) }
    {
        let mut bracket = C::bracket_from(self.start);
        loop {
            let value = C::evaluate(bracket.upper, self.mu, allowed)?.value();
            match C::widened(bracket, value, self.probability) {
                ControlFlow::Break(found) => return Ok(found),
                ControlFlow::Continue(wider) => bracket = wider,
            }
        }
    }

    // Halves from the start until the root is no longer below the bracket.
    fn bracket_quantile_from_above<C: Curve>(
        self,
        allowed: &mut Allowance,
    ) -> Result<Bracket, Spent>
        ensures metered { metered (λ b. b) result allowed.new.left ≡ limited allowed.old.left (downward C.rules self.start self.mu self.probability) }
        ensures spent { OnErr result (allowed.new.left ≡ 0) }
    {
        let mut next = Bracket::halved(self.start, self.start);
        loop {
            match next {
                ControlFlow::Break(found) => return Ok(found),
                ControlFlow::Continue(bracket) => {
                    let value = C::evaluate(bracket.lower, self.mu, allowed)?.value();
                    next = C::lowered(bracket, value, self.probability);
                }
            }
        }
    }

    // A bracket on the side of the start to which the value there points.
    fn bracket_beside<C: Curve>(
        self,
        value: f64,
        allowed: &mut Allowance,
    ) -> Result<Option<Bracket>, Spent>
        ensures metered { metered view_option result allowed.new.left
            ≡ limited allowed.old.left (bracket_beside C.rules self.start value self.mu self.probability) }
        ensures spent { OnErr result (allowed.new.left ≡ 0) }
    {
        if C::root_is_above(value, self.probability) {
            return self.bracket_quantile_from_below::<C>(allowed);
        }
        Ok(Some(self.bracket_quantile_from_above::<C>(allowed)?))
    }

    // At most 64 iterations, after which the midpoint is the root.
    fn iterations<C: Curve>(
        self,
        begin: (Bracket, f64),
        allowed: &mut Allowance,
    ) -> Result<f64, Spent>
        ensures metered { metered (λ r. r) result allowed.new.left
            ≡ limited allowed.old.left (narrowing C.rules self.mu self.probability begin.0 begin.1) }
        ensures spent { OnErr result (allowed.new.left ≡ 0) }
    {
        let (mut bracket, mut x) = begin;
        for _ in 0u32..64 {
            let evaluation = C::evaluate(x, self.mu, allowed)?;
            let pdf = evaluation.density(x);
            match C::iteration(bracket, x, evaluation.value(), pdf, self.probability) {
                ControlFlow::Break(root) => return Ok(root),
                ControlFlow::Continue(next) => (bracket, x) = next,
            }
        }
        Ok(bracket_midpoint(bracket))
    }

    // One evaluation at the start, a bracket on the side of the root, and the iterations in it; none where there is no
    // bracket.
    pub(crate) fn root<C: Curve>(self, allowed: &mut Allowance) -> Result<Option<f64>, Spent>
        ensures metered { metered view_option result allowed.new.left ≡ limited allowed.old.left (root_from C.rules self.start self.mu self.probability) }
        ensures spent { OnErr result (allowed.new.left ≡ 0) }
    {
        let value = C::evaluate(self.start, self.mu, allowed)?.value();
        let Some(bracket) = self.bracket_beside::<C>(value, allowed)? else {
            return Ok(None);
        };
        let begin = (bracket, C::begin(bracket, self.start));
        Ok(Some(self.iterations::<C>(begin, allowed)?))
    }
}
