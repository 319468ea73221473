// Exponents of the fused multiply-add, in 16 signed bits. That each lies between -4000 and 4000 is a fact of the type, so no
// sum and no difference of two leaves 16 bits.
ghost use Rattle.std.specs.Prelude.{◌≡◌, ◌/◌, ◌^◌, pos, ◌+ℤ◌, ◌-ℤ◌, ◌≤ℤ◌, bit_and};
ghost use Rattle.arithmetic.specs.Internal.Exponent.{InRange};

use super::format::{EXPONENT_FIELD, FRACTION_DIGITS};

// The e of a power 2^e.
#[derive(Clone, Copy, PartialEq, PartialOrd)]
pub struct Exponent {
    pub value: i16,
    ghost in_range: { InRange value },
}

impl Exponent {
    // The exponent's field of a bit pattern.
    pub(crate) fn field(bits: u64) -> Exponent
        ensures { result.value ≡ pos (bit_and (bits / 2 ^ 52) 0x7ff) }
    {
        Exponent {
            value: ((bits >> FRACTION_DIGITS) & EXPONENT_FIELD) as i16,
        }
    }

    // The exponent of the product of 2^self and 2^b.
    pub(crate) fn sum(self, b: Exponent) -> Exponent
        requires { InRange (self.value +ℤ b.value) }
        ensures { result.value ≡ self.value +ℤ b.value }
    {
        Exponent {
            value: self.value + b.value,
        }
    }

    // The exponent n digits above this one.
    pub(crate) fn raised(self, n: u64) -> Exponent
        requires n_in_range { InRange (pos n) }
        requires sum_in_range { InRange (self.value +ℤ pos n) }
        ensures { result.value ≡ self.value +ℤ pos n }
    {
        Exponent {
            value: self.value + (n as i16),
        }
    }

    // The exponent n digits below this one.
    pub(crate) fn lowered(self, n: u64) -> Exponent
        requires n_in_range { InRange (pos n) }
        requires difference_in_range { InRange (self.value -ℤ pos n) }
        ensures { result.value ≡ self.value -ℤ pos n }
    {
        Exponent {
            value: self.value - (n as i16),
        }
    }

    // How many digits this one lies above b: the difference, taken in 16 bits and then widened.
    pub(crate) fn distance(self, b: Exponent) -> u64
        requires difference_in_range { InRange (self.value -ℤ b.value) }
        requires not_above { b.value ≤ℤ self.value }
        ensures { (pos result ≡ self.value -ℤ b.value) × InRange (pos result) }
    {
        (self.value - b.value) as u64
    }
}
