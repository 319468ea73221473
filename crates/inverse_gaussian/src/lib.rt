// Quantiles of the inverse Gaussian distribution, by searches that count their evaluations of its curves.
#![tactic(auto)]

pub mod bracket;
pub mod curves;
pub mod initial_guess;
pub mod newton;
pub mod quantile;
pub mod search;
pub mod survival;
