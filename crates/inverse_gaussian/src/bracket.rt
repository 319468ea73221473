// The bracket of a root, and how it is narrowed.
ghost use Rattle.std.specs.Prelude.{◌≡◌};
ghost use Rattle.inverse_gaussian.specs.Internal.Searches.{view_flow};
ghost use Rattle.inverse_gaussian.specs.Bracket.{halved, bracket_midpoint, bracket_is_tight, narrowed, inside, chosen};
ghost use Rattle.inverse_gaussian.specs.Quantile.{floor, raised, clamped};

use arithmetic::basic::is_finite;
use arithmetic::constants::MIN_POSITIVE;
use arithmetic::exp::exp;
use arithmetic::ln::ln;
use std::ops::ControlFlow;

// 32 times f64::EPSILON
pub(crate) const QUANTILE_BRACKET_TOLERANCE: f64 = 7.105427357601002e-15;

#[derive(Clone, Copy)]
pub struct Bracket {
    pub lower: f64,
    pub upper: f64,
}

impl Bracket {
    // The bracket from half of x, whose lower bound is evaluated next; where that half is at most the smallest normal
    // value from 0, which needs no evaluation.
    #[tactic(auto, unfolding(crate::specs::Bracket::halved))]
    pub fn halved(x: f64, upper: f64) -> ControlFlow<Bracket, Bracket>
        ensures { view_flow (λ b. b) result ≡ halved x upper }
    {
        let lower = x * 0.5;
        if lower <= MIN_POSITIVE {
            return ControlFlow::Break(Bracket { lower: 0.0, upper });
        }
        ControlFlow::Continue(Bracket { lower, upper })
    }

    // The bound on the side of x away from the root is moved to x.
    #[tactic(auto, unfolding(crate::specs::Bracket::narrowed))]
    pub fn narrowed(self, x: f64, root_is_above: bool) -> Bracket
        ensures { result ≡ narrowed self x root_is_above }
    {
        if root_is_above {
            Bracket {
                lower: x,
                upper: self.upper,
            }
        } else {
            Bracket {
                lower: self.lower,
                upper: x,
            }
        }
    }

    // Whether x is finite and lies strictly between the bounds.
    fn holds(self, x: f64) -> bool
        ensures { result ≡ inside self x }
    {
        is_finite(x) && x > self.lower && x < self.upper
    }

    // The point of a Newton step if the bracket holds it, and else the midpoint.
    #[tactic(auto, unfolding(crate::specs::Bracket::chosen))]
    pub fn chosen(self, next: f64) -> f64
        ensures { result ≡ chosen self next }
    {
        if self.holds(next) {
            next
        } else {
            bracket_midpoint(self)
        }
    }

    // The lower bound, or the smallest normal value where that is 0.
    fn floor(self) -> f64
        ensures { result ≡ floor self }
    {
        if self.lower > 0.0 {
            self.lower
        } else {
            MIN_POSITIVE
        }
    }

    fn raised(self, x: f64) -> f64
        ensures { result ≡ raised self x }
    {
        let floor = self.floor();
        if x < floor { floor } else { x }
    }

    // x brought into the bracket: the lower bound is applied, then the upper.
    #[tactic(auto, unfolding(crate::specs::Quantile::clamped))]
    pub fn clamped(self, x: f64) -> f64
        ensures { result ≡ clamped self x }
    {
        let raised = self.raised(x);
        if raised > self.upper {
            self.upper
        } else {
            raised
        }
    }
}

// The geometric mean, or half of the upper bound where the lower is 0.
#[tactic(auto, unfolding(crate::specs::Bracket::bracket_midpoint))]
pub fn bracket_midpoint(bracket: Bracket) -> f64
    ensures { result ≡ bracket_midpoint bracket }
{
    if bracket.lower <= 0.0 {
        return 0.5 * bracket.upper;
    }
    exp(0.5 * (ln(bracket.lower) + ln(bracket.upper)))
}

#[tactic(auto, unfolding(crate::specs::Bracket::bracket_is_tight))]
pub fn bracket_is_tight(bracket: Bracket) -> bool
    ensures { result ≡ bracket_is_tight bracket }
{
    if bracket.lower <= 0.0 {
        return bracket.upper <= MIN_POSITIVE;
    }
    bracket.upper / bracket.lower - 1.0 <= QUANTILE_BRACKET_TOLERANCE
}
