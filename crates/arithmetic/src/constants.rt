// Rust's constants of f64 that the source uses.
use std::f64::consts;

pub const MAX: f64 = f64::MAX;

pub const MIN_POSITIVE: f64 = f64::MIN_POSITIVE;

pub const EPSILON: f64 = f64::EPSILON;

pub const SQRT_2: f64 = consts::SQRT_2;

pub const FRAC_1_SQRT_2: f64 = consts::FRAC_1_SQRT_2;
