// The entries: the total volatility and the volatility of a price, or why it has none.
ghost use Rattle.std.specs.Prelude.{◌≡◌, IsErrOf};
ghost use Rattle.arithmetic.specs.Operations.{◌⊗◌};
ghost use Rattle.arithmetic.specs.Sqrt.{sqrt};
ghost use Rattle.bs_option_price.specs.BsOptionPrice.{negative_abs_log_moneyness};
ghost use Rattle.inverse_gaussian.specs.Counted.{limited};
ghost use Rattle.inverse_gaussian.specs.Internal.Searches.{view_option};
ghost use Rattle.explicit_black.specs.declared.quote.Unsolved.TheVariants.{Refused as IsRefused, Spent as IsSpent};
ghost use Rattle.explicit_black.specs.Quote.{implied_normalised_volatility_atm, at_the_money, total_at, from_call_price, from_normalised_price};
ghost use Rattle.explicit_black.specs.Quote.{volatility_over, reply_over, bound_tests, normalised_time_value};
ghost use Rattle.explicit_black.specs.Quote.{from_time_value, from_price, from_figures, from_quote};
ghost use Rattle.explicit_black.specs.Quote.{implied_black_volatility_normalised, implied_black_volatility_input};
ghost use Rattle.explicit_black.specs.Internal.Quote.{view_outcome, view_solved, view_tested, LeftWithin, RepliesTo};
ghost use Rattle.explicit_black.specs.Replies.{view_reply};

use crate::refusal::{Refusal, Refused};
use crate::terms::OptionTerms;
use arithmetic::basic::{abs, is_finite, max};
use arithmetic::constants::{MIN_POSITIVE, SQRT_2};
use arithmetic::exp::exp;
use arithmetic::sqrt::sqrt;
use bs_option_price::negative_abs_log_moneyness;
use inverse_gaussian::curves::{Allowance, Spent};
use inverse_gaussian::initial_guess::is_finite_positive;
use inverse_gaussian::quantile::inverse_gaussian_quantile;
use inverse_gaussian::survival::inverse_gaussian_quantile_from_survival;
use special_function::error_function::erfinv;

// No quote makes more evaluations.
pub(crate) const MAX_EVALUATIONS: u64 = 2263;

// Why no total volatility is found: it is refused, or an evaluation was needed that is not allowed.
#[derive(Clone, Copy, Debug, PartialEq, Eq)]
pub enum Unsolved {
    Refused(Refusal),
    Spent,
}

impl From<Refusal> for Unsolved {
    ghost from_gives = { λ refusal unsolved. unsolved ≡ IsRefused refusal };

    fn from(refusal: Refusal) -> Unsolved {
        Unsolved::Refused(refusal)
    }
}

impl From<Spent> for Unsolved {
    ghost from_gives = { λ spent unsolved. unsolved ≡ IsSpent };

    fn from(_spent: Spent) -> Unsolved {
        Unsolved::Spent
    }
}

// The total volatility and the volatility of a price, with how many evaluations were made.
#[derive(Clone, Copy)]
pub struct Answer {
    pub total: f64,
    pub volatility: f64,
    pub count: u64,
}

// What an entry hands back.
pub type Reply = Result<Answer, Refused>;

// The roots of forward and strike, as they are given.
#[derive(Clone, Copy)]
pub struct Roots {
    pub forward: f64,
    pub strike: f64,
}

// total / root_time; at time zero 0.
#[tactic(auto, unfolding(crate::specs::Quote::volatility_over))]
pub fn volatility(total: f64, time: f64, root_time: f64) -> f64
    ensures { result ≡ volatility_over time root_time total }
{
    if time == 0.0 { 0.0 } else { total / root_time }
}

// The reply to a quote: the count is how many evaluations its calls took off what any quote is allowed.
#[tactic(auto, using(crate::proofs::Allowed::refuses))]
pub(crate) fn reply(
    solved: Result<f64, Unsolved>,
    allowed: &Allowance,
    time: f64,
    root_time: f64,
) -> Reply
    requires { LeftWithin 2263 (view_solved solved allowed.now.left) }
    ensures { RepliesTo 2263 time root_time (view_solved solved allowed.now.left) (view_reply result) }
{
    let count = MAX_EVALUATIONS - allowed.left();
    match solved {
        Ok(total) => Ok(Answer {
            total,
            volatility: volatility(total, time, root_time),
            count,
        }),
        Err(Unsolved::Refused(refusal)) => Err(Refused { refusal, count }),
        // `LeftWithin` says that the allowance was not spent
        Err(Unsolved::Spent) => unreachable!(),
    }
}

#[tactic(auto, unfolding(crate::specs::Quote::implied_normalised_volatility_atm))]
fn implied_normalised_volatility_atm(beta: f64) -> f64
    ensures { result ≡ implied_normalised_volatility_atm beta }
{
    2.0 * SQRT_2 * erfinv(beta)
}

// The closed form at the money, refused where its value is NaN or below 0.
#[tactic(auto, unfolding(crate::specs::Quote::at_the_money))]
fn at_the_money(price: f64) -> Result<f64, Refusal>
    ensures { view_outcome result ≡ at_the_money price }
{
    let total = implied_normalised_volatility_atm(price);
    if total >= 0.0 {
        return Ok(total);
    }
    Err(Refusal::NoVolatility)
}

// The total volatility at the root of a search, refused where there is none that is finite and above 0.
#[tactic(auto, unfolding(crate::specs::Quote::total_at))]
fn total_at(root: Option<f64>) -> Result<f64, Refusal>
    ensures { view_outcome result ≡ total_at (view_option root) }
{
    match root {
        Some(x) if is_finite_positive(x) => Ok(2.0 / sqrt(x)),
        _ => Err(Refusal::NoVolatility),
    }
}

// Solves from the price of the out-of-the-money call as a fraction of its bound, which is the survival probability at
// the root.
#[tactic(auto, using(crate::proofs::Allowed::solves), unfolding(crate::specs::Quote::from_call_price))]
fn from_call_price(otm_call_price: f64, mu: f64, allowed: &mut Allowance) -> Result<f64, Unsolved>
    ensures metered { view_solved result allowed.new.left ≡ limited allowed.old.left (from_call_price otm_call_price mu) }
    ensures spent { IsErrOf result Unsolved.Spent → allowed.new.left ≡ 0 }
{
    if otm_call_price < 1.0e-5 {
        let root = inverse_gaussian_quantile_from_survival(otm_call_price, mu, allowed)?;
        return Ok(total_at(root)?);
    }
    let probability = 1.0 - otm_call_price;
    // No call of an entry, whatever its bits, takes this branch or the next: specs/Laws/Guards.antt.
    if probability <= 0.0 {
        return Ok(f64::INFINITY);
    }
    if probability >= 1.0 {
        return Ok(0.0);
    }
    let root = inverse_gaussian_quantile(probability, mu, allowed)?;
    Ok(total_at(root)?)
}

// Solves from the normalised price, after test 2: tests 7, 8 and 9.
#[tactic(auto, using(crate::proofs::Allowed::solves), unfolding(crate::specs::Quote::from_normalised_price))]
pub fn from_normalised_price(
    log_moneyness: f64,
    price: f64,
    allowed: &mut Allowance,
) -> Result<f64, Unsolved>
    ensures metered { view_solved result allowed.new.left ≡ limited allowed.old.left (from_normalised_price log_moneyness price) }
    ensures spent { IsErrOf result Unsolved.Spent → allowed.new.left ≡ 0 }
{
    if price <= 0.0 {
        if price == 0.0 {
            return Ok(0.0);
        }
        return Err(Refusal::BelowIntrinsic.into());
    }
    let abs_x = abs(log_moneyness);
    let b_max = exp(-0.5 * abs_x);
    if price >= b_max {
        if price == b_max {
            return Ok(f64::INFINITY);
        }
        return Err(Refusal::AboveNormalisedBound.into());
    }
    if abs_x == 0.0 {
        return Ok(at_the_money(price)?);
    }
    from_call_price(price / b_max, 2.0 / abs_x, allowed)
}

#[tactic(auto, unfolding(crate::specs::Quote::implied_black_volatility_normalised))]
pub fn implied_black_volatility_normalised(log_moneyness: f64, normalised_price: f64) -> Reply
    ensures { view_reply result ≡ implied_black_volatility_normalised log_moneyness normalised_price }
{
    if !(is_finite(log_moneyness) && is_finite(normalised_price)) {
        return Err(Refusal::NotFinite.into());
    }
    // the answer is as at time 1, whose root is 1
    let mut allowed = Allowance::new(MAX_EVALUATIONS);
    let solved = from_normalised_price(log_moneyness, normalised_price, &mut allowed);
    reply(solved, &allowed, 1.0, 1.0)
}

// The price without its intrinsic value, over `roots`, the product of the roots of forward and strike.
fn normalised_time_value(price: f64, intrinsic: f64, roots: f64) -> f64
    ensures { result ≡ normalised_time_value price intrinsic roots }
{
    if intrinsic > 0.0 {
        return (price - intrinsic) / roots;
    }
    price / roots
}

// Solves from the normalised time value: test 7, and those of the normalised price.
#[tactic(auto, using(crate::proofs::Allowed::solves), unfolding(crate::specs::Quote::from_time_value))]
pub fn from_time_value(
    forward: f64,
    strike: f64,
    time_value: f64,
    allowed: &mut Allowance,
) -> Result<f64, Unsolved>
    ensures metered { view_solved result allowed.new.left
        ≡ limited allowed.old.left (from_time_value (negative_abs_log_moneyness forward strike) time_value) }
    ensures spent { IsErrOf result Unsolved.Spent → allowed.new.left ≡ 0 }
{
    if time_value <= MIN_POSITIVE {
        if time_value >= 0.0 {
            return Ok(0.0);
        }
        return Err(Refusal::BelowIntrinsic.into());
    }
    let log_moneyness = negative_abs_log_moneyness(forward, strike);
    from_normalised_price(log_moneyness, time_value, allowed)
}

// What tests 5 and 6 decide: test 5, the price at time zero, and test 6, the bound of the price. A price below its bound at a time above
// zero is left open.
#[tactic(auto, unfolding(crate::specs::Quote::bound_tests))]
pub fn bound_tests(
    price: f64,
    intrinsic: f64,
    bound: f64,
    time: f64,
) -> Result<Option<f64>, Refusal>
    ensures { view_tested result ≡ bound_tests price intrinsic bound time }
{
    if time == 0.0 {
        if price == max(intrinsic, 0.0) {
            return Ok(Some(0.0));
        }
        return Err(Refusal::PriceAtExpiry);
    }
    if price >= bound {
        if price == bound {
            return Ok(Some(f64::INFINITY));
        }
        return Err(Refusal::AboveBound);
    }
    Ok(None)
}

// Solves from a price that passed tests 5 and 6, and the roots of forward and strike.
pub fn from_roots(
    terms: OptionTerms,
    price: f64,
    intrinsic: f64,
    roots: Roots,
    allowed: &mut Allowance,
) -> Result<f64, Unsolved>
    ensures metered { view_solved result allowed.new.left ≡ limited allowed.old.left
        (from_time_value (negative_abs_log_moneyness terms.forward terms.strike)
        (normalised_time_value price intrinsic (roots.forward ⊗ roots.strike))) }
    ensures spent { IsErrOf result Unsolved.Spent → allowed.new.left ≡ 0 }
{
    let time_value = normalised_time_value(price, intrinsic, roots.forward * roots.strike);
    from_time_value(terms.forward, terms.strike, time_value, allowed)
}

// The reply from what follows tests 1 to 6, with as many evaluations allowed as any quote makes, and with the roots of forward,
// strike and time as they are given.
pub fn reply_from_roots(
    terms: OptionTerms,
    price: f64,
    intrinsic: f64,
    roots: Roots,
    root_time: f64,
) -> Reply
    ensures { view_reply result ≡ reply_over terms.time root_time
        (from_time_value (negative_abs_log_moneyness terms.forward terms.strike)
        (normalised_time_value price intrinsic (roots.forward ⊗ roots.strike))) }
{
    let mut allowed = Allowance::new(MAX_EVALUATIONS);
    let solved = from_roots(terms, price, intrinsic, roots, &mut allowed);
    reply(solved, &allowed, terms.time, root_time)
}

// Solves from the price, after tests 1 to 4: tests 5 and 6, and those of the time value.
#[tactic(auto, using(crate::proofs::Allowed::solves), unfolding(crate::specs::Quote::from_price, inverse_gaussian::specs::Counted::or_else))]
pub fn from_price(
    terms: OptionTerms,
    price: f64,
    intrinsic: f64,
    bound: f64,
    allowed: &mut Allowance,
) -> Result<f64, Unsolved>
    ensures metered { view_solved result allowed.new.left ≡ limited allowed.old.left
        (from_price price intrinsic bound (sqrt terms.forward ⊗ sqrt terms.strike)
        (negative_abs_log_moneyness terms.forward terms.strike) terms.time) }
    ensures spent { IsErrOf result Unsolved.Spent → allowed.new.left ≡ 0 }
{
    if let Some(total) = bound_tests(price, intrinsic, bound, terms.time)? {
        return Ok(total);
    }
    let roots = Roots {
        forward: sqrt(terms.forward),
        strike: sqrt(terms.strike),
    };
    from_roots(terms, price, intrinsic, roots, allowed)
}

// Solves from terms and price after tests 1 to 4: tests 5 and 6, and those of the time value. A price that was divided by a factor may be infinite.
pub fn from_figures(
    terms: OptionTerms,
    price: f64,
    allowed: &mut Allowance,
) -> Result<f64, Unsolved>
    ensures metered { view_solved result allowed.new.left
        ≡ limited allowed.old.left (from_figures terms.side price terms.forward terms.strike terms.time) }
    ensures spent { IsErrOf result Unsolved.Spent → allowed.new.left ≡ 0 }
{
    let intrinsic = terms.intrinsic_value();
    let bound = terms.price_bound();
    from_price(terms, price, intrinsic, bound, allowed)
}

// Solves from the figures of a quote: tests 1 to 4 (REQUIREMENTS 5), and those of the price.
#[tactic(auto, using(crate::proofs::Allowed::solves), unfolding(crate::specs::Quote::from_quote))]
pub fn from_quote(terms: OptionTerms, price: f64, allowed: &mut Allowance) -> Result<f64, Unsolved>
    ensures metered { view_solved result allowed.new.left
        ≡ limited allowed.old.left (from_quote terms.side price terms.forward terms.strike terms.time) }
    ensures spent { IsErrOf result Unsolved.Spent → allowed.new.left ≡ 0 }
{
    terms.first_refusal(price)?;
    from_figures(terms, price, allowed)
}

#[tactic(auto, unfolding(crate::specs::Quote::implied_black_volatility_input))]
pub fn implied_black_volatility_input(terms: OptionTerms, price: f64) -> Reply
    ensures { view_reply result ≡ implied_black_volatility_input terms.side price terms.forward terms.strike terms.time }
{
    let mut allowed = Allowance::new(MAX_EVALUATIONS);
    let solved = from_quote(terms, price, &mut allowed);
    reply(solved, &allowed, terms.time, sqrt(terms.time))
}
