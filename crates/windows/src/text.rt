// The words of a window as text.
use crate::WORD_BYTES;
use cable_window::window::Window;
use std::fmt;
use std::fmt::{Display, Formatter};
use xdr_sheet::xdr::unsigned;

// Prints as the 16 words in hexadecimal digits, a space before each.
#[derive(Clone, Copy)]
pub struct Words(pub Window);

impl Display for Words {
    fn fmt<W: fmt::Write>(&self, f: &mut Formatter<W>) -> fmt::Result {
        for word in self.0.bytes().chunks(WORD_BYTES) {
            write!(f, " {:08x}", unsigned(word, 0))?;
        }
        Ok(())
    }
}
