// Layer one: the arithmetic of binary64 that no operator gives.
#![tactic(auto)]

pub mod basic;
pub mod constants;
pub mod exp;
mod exponent;
pub mod format;
pub mod fused_multiply_add;
pub mod ln;
pub mod mul_add;
mod pair;
mod root_table;
pub mod sqrt;
