// Outcomes as lines of text.
use crate::Outcome;
use explicit_black::quote::Reply;
use records::bits::Bits;
use std::io;
use xdr_sheet::text::reply_line;

// Writes a reply as a sheet prints it, without the quote's number and the space after it.
fn write_reply(rt: &impl Print, reply: Reply) -> io::Result<()> {
    let line = reply_line(1, reply);
    let text = line.as_slice();
    rt.write_all(text.strip_prefix(b"1 ").unwrap_or(text))
}

// Writes the bits of a value, or a reply, and the end of the line.
pub fn write_outcome(rt: &impl Print, outcome: Outcome) -> io::Result<()> {
    match outcome {
        Outcome::Number(value) => println!(rt; "{}", Bits(value)),
        Outcome::Replied(reply) => write_reply(rt, reply),
    }
}
