// Figures by their bits.
ghost use Rattle.std.specs.Prelude.{Some};
ghost use Rattle.records.specs.Bits.{bits_text};

use std::fmt;
use std::fmt::{Display, Formatter, Write};

// Prints as the 16 hexadecimal digits of the figure's bits, or as `nan`, since NaN has many.
#[derive(Clone, Copy)]
pub struct Bits(pub f64);

impl Display for Bits {
    ghost output = { λ b. Some (bits_text b.0) };

    fn fmt<W: Write>(&self, f: &mut Formatter<W>) -> fmt::Result {
        if self.0.is_nan() {
            return f.write_str("nan");
        }
        write!(f, "{:016x}", self.0.to_bits())
    }
}
