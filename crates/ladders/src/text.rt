// A ladder's reply and the four lent slices as lines of text.
use explicit_black::refusal::Refused;
use records::bits::Bits;
use std::fmt::{Display, Formatter, Write};
use std::{fmt, io};

// Prints as the value, or as `-` where there is none.
#[derive(Drop)]
struct OrDash<T>(Option<T>);

impl<T: Display> Display for OrDash<T> {
    fn fmt<W: Write>(&self, f: &mut Formatter<W>) -> fmt::Result {
        match &self.0 {
            Some(value) => write!(f, "{value}"),
            None => f.write_str("-"),
        }
    }
}

// The four lent slices, after the call.
#[derive(Clone, Copy)]
pub struct Places<'a> {
    pub totals: &'a [f64],
    pub volatilities: &'a [f64],
    pub counts: &'a [u64],
    pub refusals: &'a [u32],
}

impl Places<'_> {
    // How many places the longest of the four has.
    fn count(self) -> usize {
        let figures = self.totals.len().max(self.volatilities.len());
        figures.max(self.counts.len()).max(self.refusals.len())
    }
}

// Writes `L` and how many strike roots were taken, or `R` with the number and count of a refusal.
pub fn write_reply(rt: &impl Print, reply: Result<u64, Refused>) -> io::Result<()> {
    match reply {
        Ok(roots) => println!(rt; "L {roots}"),
        Err(refused) => println!(rt; "R {} {}", refused.refusal.number(), refused.count),
    }
}

// Writes a line for each place of the longest of the four: figures by their bits, and `-` where a slice is shorter.
pub fn write_places(rt: &impl Print, places: Places) -> io::Result<()> {
    for i in 0..places.count() {
        let total = OrDash(places.totals.get(i).map(|x| Bits(*x)));
        let volatility = OrDash(places.volatilities.get(i).map(|x| Bits(*x)));
        let count = OrDash(places.counts.get(i));
        let refusal = OrDash(places.refusals.get(i));
        println!(rt; "{total} {volatility} {count} {refusal}")?;
    }
    Ok(())
}
