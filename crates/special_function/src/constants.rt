// The constants of the source's constants.rs that the kept functions use. Rust's own stand in arithmetic::constants.

// √(π/2)
pub const SQRT_PI_OVER_2: f64 = 1.253_314_137_315_500_3;

// 2^(-52/16): the source's literal is one unit in the last place above the nearest f64.
pub const SIXTEENTH_ROOT_DBL_EPSILON: f64 = 0.105_112_051_906_714_33;

// 1/√(2π), for the density and the vega. The source has it a second time, with the same bits: FRAC_SQRT_2_PI of normal_distribution.rs.
pub const FRAC_1_SQRT_2_PI: f64 = 0.398_942_280_401_432_65;
