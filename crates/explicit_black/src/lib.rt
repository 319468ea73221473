// The Black volatility of a quote, and of a normalised price, by quantiles of the inverse Gaussian distribution; of a
// quote with a discounted price; and the price of a volatility.
#![tactic(auto)]

pub mod discount;
pub mod price;
pub mod quote;
pub mod refusal;
pub mod terms;
