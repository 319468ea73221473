// A polynomial by Horner's rule, for every length of its coefficients.
ghost use Rattle.std.specs.Prelude.{◌≡◌};
ghost use Rattle.arithmetic.specs.Operations.{◌⊘◌};
ghost use Rattle.special_function.specs.Polynomial.{evaluate, nested};

use arithmetic::fused_multiply_add::mul_add2_sel;

// The value, times z, plus the next coefficient, from the first to the last; with none, it is
// `start`.
pub fn evaluate(start: f64, coefficients: &[f64], z: f64) -> f64
    ensures { result ≡ evaluate start coefficients.now z }
{
    let mut value = start;
    for c in coefficients {
        value = mul_add2_sel(value, z, *c);
    }
    value
}

// The polynomial whose highest coefficient is the first; with none, it is 0.
#[tactic(auto, unfolding(crate::specs::Polynomial::nested))]
pub fn nested(z: f64, coefficients: &[f64]) -> f64
    ensures { result ≡ nested z coefficients.now }
{
    match coefficients {
        [] => 0.0,
        [first, rest @ ..] => evaluate(*first, rest, z),
    }
}

// The test keeps the compiler from pairing the operations of the two polynomials, which would wait for each other: a NaN
// above is the quotient.
pub fn rational(z: f64, numerator: &[f64], denominator: &[f64]) -> f64
    ensures { result ≡ nested z numerator.now ⊘ nested z denominator.now }
{
    let above = nested(z, numerator);
    if above.is_nan() {
        return above;
    }
    above / nested(z, denominator)
}

// A quotient of polynomials, each from its highest coefficient down.
#[derive(Clone, Copy)]
pub struct RationalFunction<const N: usize, const M: usize> {
    pub numerator: [f64; N],
    pub denominator: [f64; M],
}

impl<const N: usize, const M: usize> RationalFunction<N, M> {
    pub fn at(&self, z: f64) -> f64
        ensures { result ≡ nested z self.now.numerator ⊘ nested z self.now.denominator }
    {
        rational(z, &self.numerator, &self.denominator)
    }
}
