// Quotes that share side, forward and time, solved into lent slices: the roots of forward and time are taken once.
#![tactic(auto)]

pub mod ladder;
mod place;
mod strike_root;
