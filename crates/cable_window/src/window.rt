// The window: command, status, a quote, and the results of the last solve. The host writes command and quote.
ghost use Rattle.std.specs.Prelude.{◌≡◌, ◌+◌, ◌≤◌};
ghost use Rattle.explicit_black.specs.Replies.{view_reply, view_refusal};
ghost use Rattle.cable_window.specs.Window.{window_bytes, zeros, with_word, with_hyper, window_reply, with_results, cleared, solved, commanded};
ghost use Rattle.cable_window.specs.Window.{writable, offset_refusal, after_write, after_writes, writes};

use explicit_black::quote::{Reply, implied_black_volatility_input};
use explicit_black::refusal::Refusal;
use xdr_sheet::sheet::terms;
use xdr_sheet::xdr::{double, pattern, unsigned};

pub const WINDOW_BYTES: usize = 64;

const WORD_BYTES: usize = 4;

const HYPER_BYTES: usize = 8;

// Where the words stand. Side and figures stand as in a record of a quote, up to the time.
const COMMAND: usize = 0;

const STATUS: usize = 4;

const SIDE: u32 = 8;

const PRICE: usize = 12;

const TOTAL: usize = 44;

const VOLATILITY: usize = 52;

const COUNT: usize = 60;

// The first and the last word of the quote, which is its side and its figures.
const FIRST_QUOTE_WORD: u32 = 8;

const LAST_QUOTE_WORD: u32 = 40;

// The bits of a status; a refusal's number is in bits 8 to 15.
const DONE: u32 = 1;

const REFUSED: u32 = 2;

const INTERRUPT: u32 = 4;

const NUMBER: u32 = 256;

const ANSWERED_STATUS: u32 = DONE + INTERRUPT;

const REFUSED_STATUS: u32 = DONE + REFUSED + INTERRUPT;

// Its field is private: no other code makes a window of bytes of its own, or changes some of its bytes. So in Rattle a window is one that
// writes from zeros leave; C may lend any 64 bytes.
#[repr(C)]
#[derive(Clone, Copy)]
pub struct Window {
    bytes: [u8; WINDOW_BYTES],
}

impl Window {
    pub fn zeros() -> Window
        ensures { result.bytes ≡ zeros }
    {
        Window {
            bytes: [0u8; WINDOW_BYTES],
        }
    }

    pub fn bytes(self) -> [u8; WINDOW_BYTES]
        ensures { result ≡ self.bytes }
    {
        self.bytes
    }

    #[tactic(auto, using(crate::proofs::Steps::word_put))]
    fn with_word(mut self, at: usize, word: u32) -> Window
        requires { at + 4 ≤ window_bytes }
        ensures { result.bytes ≡ with_word self.bytes at word }
    {
        self.bytes[at..at + WORD_BYTES].copy_from_slice(&word.to_be_bytes());
        self
    }

    #[tactic(auto, using(crate::proofs::Steps::hyper_put))]
    fn with_hyper(mut self, at: usize, n: u64) -> Window
        requires { at + 8 ≤ window_bytes }
        ensures { result.bytes ≡ with_hyper self.bytes at n }
    {
        self.bytes[at..at + HYPER_BYTES].copy_from_slice(&n.to_be_bytes());
        self
    }

    // The reply to the quote whose figures stand in the window.
    #[tactic(auto, unfolding(crate::specs::Window::window_reply))]
    fn reply(self) -> Reply
        ensures { view_reply result ≡ window_reply self.bytes }
    {
        implied_black_volatility_input(terms(&self.bytes, SIDE), double(&self.bytes, PRICE))
    }

    // What a solve writes, the figures by their bits.
    #[tactic(auto, unfolding(crate::specs::Window::with_results))]
    fn with_results(self, status: u32, total: u64, volatility: u64, count: u32) -> Window
        ensures { result.bytes ≡ with_results self.bytes status total volatility count }
    {
        self.with_word(STATUS, status)
            .with_hyper(TOTAL, total)
            .with_hyper(VOLATILITY, volatility)
            .with_word(COUNT, count)
    }

    // Bit 1 of the command clears the interrupt.
    #[tactic(auto, unfolding(crate::specs::Window::cleared))]
    fn cleared(self, command: u32) -> Window
        ensures { result.bytes ≡ cleared self.bytes command }
    {
        if command / 2 % 2 == 0 {
            return self;
        }
        let status = unsigned(&self.bytes, STATUS);
        self.with_word(STATUS, status - status / INTERRUPT % 2 * INTERRUPT)
    }

    // Bit 0 of the command solves. The figures of a refusal are zeros.
    #[tactic(auto, unfolding(crate::specs::Window::solved))]
    fn solved(self, command: u32) -> Window
        ensures { result.bytes ≡ solved self.bytes command }
    {
        if command % 2 == 0 {
            return self;
        }
        match self.reply() {
            Ok(answer) => self.with_results(
                ANSWERED_STATUS,
                pattern(answer.total),
                pattern(answer.volatility),
                answer.count as u32,
            ),
            Err(refused) => {
                let status = REFUSED_STATUS + refused.refusal.number() * NUMBER;
                self.with_results(status, 0, 0, refused.count as u32)
            }
        }
    }

    // The interrupt is cleared first, then the quote is solved; afterwards the command reads as 0, whatever its other bits were.
    #[tactic(auto, unfolding(crate::specs::Window::commanded))]
    fn commanded(self, command: u32) -> Window
        ensures { result.bytes ≡ commanded self.bytes command }
    {
        self.cleared(command).solved(command).with_word(COMMAND, 0)
    }

    // The window after a write of a word, by value.
    #[tactic(auto, unfolding(crate::specs::Window::after_write))]
    fn after_write(self, offset: u32, word: u32) -> Window
        ensures { result.bytes ≡ after_write self.bytes offset word }
    {
        if offset == 0 {
            self.commanded(word)
        } else if is_writable(offset) {
            self.with_word(offset as usize, word)
        } else {
            self
        }
    }

    // A write of a word to a window that is lent. Where the offset is refused the window is not touched.
    #[tactic(auto, unfolding(crate::specs::Window::offset_refusal, crate::specs::Window::after_write))]
    pub fn write(&mut self, offset: u32, word: u32) -> Result<(), Refusal>
        ensures number { view_refusal result ≡ offset_refusal offset }
        ensures window { self.new.bytes ≡ after_write self.old.bytes offset word }
    {
        if !is_writable(offset) {
            return Err(Refusal::UnwritableOffset);
        }
        *self = self.after_write(offset, word);
        Ok(())
    }
}

// Whether an offset is that of the command, of the side or of a word of a figure.
fn is_writable(offset: u32) -> bool
    ensures { result ≡ writable offset }
{
    offset == 0 || offset % 4 == 0 && FIRST_QUOTE_WORD <= offset && offset <= LAST_QUOTE_WORD
}

// The window after a list of writes from one of zeros: as many as both slices have.
pub fn after_writes(offsets: &[u32], words: &[u32]) -> Window
    ensures { result.bytes ≡ after_writes zeros (writes offsets.now words.now) }
{
    let mut window = Window::zeros();
    for (offset, word) in offsets.iter().zip(words) {
        // a refused one leaves the window as it was
        let _ = window.write(*offset, *word);
    }
    window
}
