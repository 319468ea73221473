// Windows after lists of writes. Standard input holds lists one after the other, as XDR writes them: an unsigned count, then for each
// write its offset and its word, both unsigned. Each list starts from a window of zeros. Each write gives a line: what was handed
// back, and the 16 words of the window after it in hexadecimal digits; then a line with `W` and the words that the list as a whole
// leaves. A count over 512, and input that ends inside a list, end the run, and so does a read or a write that fails, whose error
// is reported.
#![tactic(auto)]

mod text;

use cable_window::window::{Window, after_writes};
use records::read_record;
use std::io;
use std::io::Read;
use std::iter::from_fn;
use text::Words;
use xdr_sheet::xdr::unsigned;

// How many writes a list has at most.
const ROOM: usize = 512;

const WORD_BYTES: usize = 4;

const WRITE_BYTES: usize = 8;

// Writes a line for each write, and one for the list.
fn answer_writes(rt: &impl Print, offsets: &[u32], words: &[u32]) -> io::Result<()> {
    let mut window = Window::zeros();
    for (offset, word) in offsets.iter().zip(words) {
        let written = window.write(*offset, *word);
        let number = written.err().map_or(0, |refusal| refusal.number());
        println!(rt; "{number}{}", Words(window))?;
    }
    println!(rt; "W{}", Words(after_writes(offsets, words)))
}

// Reads a list and writes its lines. `None`: the input ends inside it, or it has more writes than there is room for.
fn answer_list(rt: &impl Print, input: &mut impl Read) -> io::Result<Option<()>> {
    let Some(head) = read_record::<_, WORD_BYTES>(input)? else {
        return Ok(None);
    };
    let count = unsigned(&head, 0) as usize;
    let (mut offsets, mut words) = ([0u32; ROOM], [0u32; ROOM]);
    let (Some(offsets), Some(words)) = (offsets.get_mut(..count), words.get_mut(..count)) else {
        return Ok(None);
    };
    for (offset, word) in offsets.iter_mut().zip(words.iter_mut()) {
        let Some(write) = read_record::<_, WRITE_BYTES>(input)? else {
            return Ok(None);
        };
        *offset = unsigned(&write, 0);
        *word = unsigned(&write, WORD_BYTES);
    }
    answer_writes(rt, offsets, words)?;
    Ok(Some(()))
}

fn main(rt: HostRuntime) -> io::Result<()> {
    let mut input = rt.stdin();
    let answers = from_fn(|| answer_list(&rt, &mut input).transpose());
    // no input has so many: a `for` is to have an end
    for answer in answers.take(usize::MAX) {
        answer?;
    }
    Ok(())
}
