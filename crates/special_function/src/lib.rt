// Layer two: error functions, the normal distribution and its inverse, polynomials.
#![tactic(auto)]

pub mod constants;
pub mod error_function;
pub mod normal_distribution;
pub mod polynomial;
mod power_table;
