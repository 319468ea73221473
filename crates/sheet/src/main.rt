// Reads a sheet of quotes from standard input and prints its answers. A read that fails ends the
// run before the first line, and a write that fails ends it there; the error is reported.
#![tactic(auto)]

mod input;

use input::read_sheet;
use std::io;
use xdr_sheet::printing::{fill, start};
use xdr_sheet::sheet::MAX_BYTES;

// How many bytes of text are written at a time, at most.
const PART_BYTES: usize = 4096;

// Prints the text, part by part.
fn print(rt: &impl Print, sheet: &[u8]) -> io::Result<()> {
    let mut out = [0u8; PART_BYTES];
    let mut progress = start();
    while let Some(_) = progress {
        let filled = fill(sheet, progress, &mut out);
        rt.write_all(&out[..filled.count])?;
        progress = filled.next;
    }
    Ok(())
}

fn main(rt: HostRuntime) -> io::Result<()> {
    // one byte more, so that longer input is told from the longest sheet
    let mut buffer = [0u8; MAX_BYTES + 1];
    let count = read_sheet(&mut rt.stdin(), &mut buffer)?;
    print(&rt, &buffer[..count])
}
