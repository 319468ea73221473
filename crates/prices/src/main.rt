// Prices of volatilities. Standard input holds records of 36 bytes: an unsigned side and the doubles
// volatility, forward, strike and time, as XDR writes them. Each record gives a line: its number, from 1
// on, and its price or its refusal. Input that ends inside a record ends the run there, and so does a read
// or a write that fails, whose error is reported.
#![tactic(auto)]

use records::read_record;
use std::io;
use std::iter::{from_fn, successors};
use xdr_sheet::price_record::{RECORD_BYTES, RecordNumber, price_reply};
use xdr_sheet::text::price_line;

fn main(rt: HostRuntime) -> io::Result<()> {
    let mut input = rt.stdin();
    let numbers = successors(RecordNumber::first(), |number| number.after());
    let records = from_fn(|| read_record::<_, RECORD_BYTES>(&mut input).transpose());
    // no input has so many: a `for` is to have an end
    for (number, record) in numbers.zip(records).take(usize::MAX) {
        let line = price_line(number, price_reply(&record?));
        rt.write_all(line.as_slice())?;
    }
    Ok(())
}
