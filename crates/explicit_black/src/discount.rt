// The quote entry: the price is divided by a discount factor, and solved as the source solves a price that is not discounted.
ghost use Rattle.std.specs.Prelude.{◌≡◌, IsErrOf};
ghost use Rattle.inverse_gaussian.specs.Counted.{limited};
ghost use Rattle.explicit_black.specs.Discount.{discounted_refusal, from_discounted_quote, implied_black_volatility_discounted};
ghost use Rattle.explicit_black.specs.Internal.Quote.{view_solved};
ghost use Rattle.explicit_black.specs.Replies.{view_reply, view_refusal};

use crate::quote::{MAX_EVALUATIONS, Reply, Unsolved, from_figures, reply};
use crate::refusal::Refusal;
use crate::terms::OptionTerms;
use arithmetic::basic::is_finite;
use arithmetic::sqrt::sqrt;
use inverse_gaussian::curves::Allowance;

// The first of tests 1 to 4 and 15 that applies. Test 2 includes the factor.
#[tactic(auto, using(crate::proofs::Tests::discounted_tests))]
fn discounted_refusal(terms: OptionTerms, price: f64, factor: f64) -> Result<(), Refusal>
    ensures { view_refusal result ≡ discounted_refusal terms.side price terms.forward terms.strike terms.time factor }
{
    if !is_finite(factor) {
        if terms.side > 1 {
            return Err(Refusal::UnknownSide);
        }
        return Err(Refusal::NotFinite);
    }
    terms.first_refusal(price)?;
    if !(factor > 0.0) {
        return Err(Refusal::FactorNotPositive);
    }
    Ok(())
}

// Solves from the figures of a quote: tests 1 to 4 and 15, and those of the price divided by the factor.
#[tactic(auto, using(crate::proofs::Allowed::solves), unfolding(crate::specs::Discount::from_discounted_quote))]
pub fn from_discounted_quote(
    terms: OptionTerms,
    price: f64,
    factor: f64,
    allowed: &mut Allowance,
) -> Result<f64, Unsolved>
    ensures metered { view_solved result allowed.new.left ≡ limited allowed.old.left
        (from_discounted_quote terms.side price terms.forward terms.strike terms.time factor) }
    ensures spent { IsErrOf result Unsolved.Spent → allowed.new.left ≡ 0 }
{
    discounted_refusal(terms, price, factor)?;
    from_figures(terms, price / factor, allowed)
}

#[tactic(auto, unfolding(crate::specs::Discount::implied_black_volatility_discounted))]
pub fn implied_black_volatility_discounted(terms: OptionTerms, price: f64, factor: f64) -> Reply
    ensures { view_reply result ≡ implied_black_volatility_discounted terms.side price terms.forward terms.strike terms.time factor }
{
    let mut allowed = Allowance::new(MAX_EVALUATIONS);
    let solved = from_discounted_quote(terms, price, factor, &mut allowed);
    reply(solved, &allowed, terms.time, sqrt(terms.time))
}
