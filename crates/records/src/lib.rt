// Records of a fixed length, from a reader.
#![tactic(auto)]

ghost use Rattle.std.specs.Prelude.{◌≡◌, ℕ, List, true, Some, IfOk};
ghost use Rattle.std.specs.Io.KnownBytes.{Consumes};

pub mod bits;

use std::io;
use std::io::{ErrorKind, Read};

// Fills `bytes` with what the reader has next; whether it has so many. Where it ends before, what `bytes` holds is not said.
pub fn read_whole<R: Read>(input: &mut R, bytes: &mut [u8]) -> io::Result<bool>
    ensures { IfOk result (λ whole. whole ≡ true → Consumes (R.remaining input.old) (R.remaining input.new) bytes.new) }
{
    match input.read_exact(bytes) {
        Ok(()) => Ok(true),
        Err(e) if e.kind() == ErrorKind::UnexpectedEof => Ok(false),
        Err(e) => Err(e),
    }
}

// The next record, or `None` where the reader ends inside it or before it.
pub fn read_record<R: Read, const N: usize>(input: &mut R) -> io::Result<Option<[u8; N]>>
    ensures { IfOk result (λ found. (bytes : List ℕ) → found ≡ Some bytes → Consumes (R.remaining input.old) (R.remaining input.new) bytes) }
{
    let mut record = [0u8; N];
    Ok(read_whole(input, &mut record)?.then_some(record))
}
