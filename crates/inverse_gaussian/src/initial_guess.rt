// The points where the searches start.
ghost use Rattle.std.specs.Prelude.{◌≡◌};
ghost use Rattle.inverse_gaussian.specs.Curves.{inverse_gaussian_quantile_initial_guess, inverse_gaussian_quantile_initial_guess_from_z};
ghost use Rattle.inverse_gaussian.specs.Curves.{finite_positive, starting_point};

use arithmetic::constants::MAX;
use arithmetic::mul_add::mul_add;
use arithmetic::sqrt::sqrt;
use special_function::normal_distribution::inverse_norm_cdf;

// Whether x is finite and above 0.
pub fn is_finite_positive(x: f64) -> bool
    ensures { result ≡ finite_positive x }
{
    x > 0.0 && x <= MAX
}

#[tactic(auto, unfolding(crate::specs::Curves::inverse_gaussian_quantile_initial_guess))]
pub fn inverse_gaussian_quantile_initial_guess(probability: f64, mu: f64) -> f64
    ensures { result ≡ inverse_gaussian_quantile_initial_guess probability mu }
{
    let z = inverse_norm_cdf(probability);
    inverse_gaussian_quantile_initial_guess_from_z(z, mu)
}

#[tactic(auto, unfolding(crate::specs::Curves::inverse_gaussian_quantile_initial_guess_from_z))]
pub fn inverse_gaussian_quantile_initial_guess_from_z(z: f64, mu: f64) -> f64
    ensures { result ≡ inverse_gaussian_quantile_initial_guess_from_z z mu }
{
    let sqrt_discriminant = sqrt(mul_add(mu, mu * z * z, 4.0 * mu));
    if z >= 0.0 {
        let sqrt_x = 0.5 * mul_add(mu, z, sqrt_discriminant);
        return sqrt_x * sqrt_x;
    }
    let sqrt_x = 2.0 * mu / (sqrt_discriminant - mu * z);
    sqrt_x * sqrt_x
}

// The guess, or mu where that is not finite and above 0.
#[tactic(auto, unfolding(crate::specs::Curves::starting_point))]
pub fn starting_point(guess: f64, mu: f64) -> f64
    ensures { result ≡ starting_point guess mu }
{
    if is_finite_positive(guess) { guess } else { mu }
}
