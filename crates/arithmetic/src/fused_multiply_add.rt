// The source's multiply-add, without its feature `fma`.
ghost use Rattle.std.specs.Prelude.{◌≡◌};
ghost use Rattle.arithmetic.specs.Basic.{mul_add2_sel};

// x * a + b, with the product rounded before the sum.
pub fn mul_add2_sel(x: f64, a: f64, b: f64) -> f64
    ensures { result ≡ mul_add2_sel x a b }
{
    x * a + b
}
