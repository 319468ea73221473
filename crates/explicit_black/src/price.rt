// The price entry: the price of a volatility, or why it is refused.
ghost use Rattle.std.specs.Prelude.{◌≡◌};
ghost use Rattle.explicit_black.specs.Price.{price_refusal, time_value, price_of, black_price};
ghost use Rattle.explicit_black.specs.Replies.{view_price_reply, view_refusal};

use crate::refusal::{Refusal, Refused};
use crate::terms::OptionTerms;
use arithmetic::sqrt::sqrt;
use bs_option_price::{negative_abs_log_moneyness, normalised_black};

// What the price entry hands back. No evaluations are made for a price, nor before a refusal: its count is 0.
pub type PriceReply = Result<f64, Refused>;

// The first of tests 1 to 4 and 11 that applies. The volatility takes the price's place in tests 1 to 4.
#[tactic(auto, unfolding(crate::specs::Price::price_refusal))]
fn price_refusal(terms: OptionTerms, volatility: f64) -> Result<(), Refusal>
    ensures { view_refusal result ≡ price_refusal terms.side volatility terms.forward terms.strike terms.time }
{
    terms.first_refusal(volatility)?;
    if volatility < 0.0 {
        return Err(Refusal::NegativeVolatility);
    }
    Ok(())
}

// The part of the price that the intrinsic value, where it is above 0, is added to. s is the total volatility.
#[tactic(auto, unfolding(crate::specs::Price::time_value))]
fn time_value(forward: f64, strike: f64, s: f64) -> f64
    ensures { result ≡ time_value forward strike s }
{
    let x = negative_abs_log_moneyness(forward, strike);
    sqrt(forward) * sqrt(strike) * normalised_black(x / 2.0, x / s, s / 2.0)
}

// The price at the total volatility s.
#[tactic(auto, unfolding(crate::specs::Price::price_of))]
fn price_of(terms: OptionTerms, s: f64) -> f64
    ensures { result ≡ price_of terms.side terms.forward terms.strike s }
{
    let intrinsic = terms.intrinsic_value();
    if s == 0.0 {
        return if intrinsic > 0.0 { intrinsic } else { 0.0 };
    }
    let value = time_value(terms.forward, terms.strike, s);
    if intrinsic > 0.0 {
        return value + intrinsic;
    }
    value
}

#[tactic(auto, unfolding(crate::specs::Price::black_price))]
pub fn black_price(terms: OptionTerms, volatility: f64) -> PriceReply
    ensures { view_price_reply result ≡ black_price terms.side volatility terms.forward terms.strike terms.time }
{
    price_refusal(terms, volatility)?;
    Ok(price_of(terms, volatility * sqrt(terms.time)))
}
