// Standard input, to its end or as much of it as a buffer holds.
ghost use Rattle.std.specs.Prelude.{◌≤◌, length, IfOk};
ghost use Rattle.xdr_sheet.specs.Sheet.{input_bytes};

use std::io;
use std::io::Read;

// One read, which gives no byte at the end of the input.
fn read_some(input: &mut impl Read, part: &mut [u8]) -> io::Result<usize>
    ensures { IfOk result (λ count. count ≤ length part.new) }
{
    input.read(part)
}

// How many bytes were read. The buffer holds more than any sheet, so that what it cannot hold changes nothing.
pub fn read_sheet(input: &mut impl Read, buffer: &mut [u8]) -> io::Result<usize>
    requires { input_bytes ≤ length buffer.old }
    ensures { IfOk result (λ count. count ≤ length buffer.new) }
{
    let mut count: usize = 0;
    for _ in 0..buffer.len() {
        if count >= buffer.len() {
            break;
        }
        let some = read_some(input, &mut buffer[count..])?;
        if some == 0 {
            return Ok(count);
        }
        count += some;
    }
    // each turn read a byte or more
    Ok(buffer.len())
}
