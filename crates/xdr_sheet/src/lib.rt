// A sheet of quotes in XDR, and the text of its answers; the record of a price in XDR, and its line.
#![tactic(auto)]

pub mod price_record;
pub mod printing;
pub mod sheet;
pub mod tally;
pub mod text;
pub mod xdr;
