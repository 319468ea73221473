// The text of a sheet's answers: a line at a time, and as many lines as a buffer holds. How far it is printed is the tally of the quotes
// whose lines are, and none once all of it is.
ghost use Rattle.std.specs.Prelude.{◌≡◌, ◌<◌, length};
ghost use Rattle.explicit_black.specs.Replies.{view_reply};
ghost use Rattle.xdr_sheet.specs.Sheet.{max_quotes};
ghost use Rattle.xdr_sheet.specs.Tally.{tally_count};
ghost use Rattle.xdr_sheet.specs.Text.{letter};
ghost use Rattle.xdr_sheet.specs.Printing.{start, quote_step, step, part, filled_with};
ghost use Rattle.xdr_sheet.specs.Internal.Printing.{view_kind, view_printed, view_filled};

use crate::sheet::{quotes_in, reply};
use crate::tally::Tally;
use crate::text::{Line, closing_line, place, refused_line, reply_line};
use explicit_black::quote::Reply;

// The lines of an answer, of a refusal, of the tally and of a refused sheet.
#[derive(Clone, Copy, Debug, PartialEq, Eq)]
pub enum LineKind {
    Answer,
    Refusal,
    Tally,
    RefusedSheet,
}

impl From<Reply> for LineKind {
    ghost from_gives = { λ reply kind. view_kind kind ≡ letter (view_reply reply) };

    fn from(reply: Reply) -> LineKind {
        match reply {
            Ok(_) => LineKind::Answer,
            Err(_) => LineKind::Refusal,
        }
    }
}

impl LineKind {
    pub fn letter(self) -> u8
        ensures { result ≡ view_kind self }
    {
        match self {
            LineKind::Answer => b'V',
            LineKind::Refusal => b'R',
            LineKind::Tally => b'T',
            LineKind::RefusedSheet => b'S',
        }
    }
}

// A line with its kind, and how far the text is printed after it.
#[derive(Drop)]
pub struct Printed {
    pub line: Line,
    pub kind: LineKind,
    pub next: Option<Tally>,
}

// How many bytes of a buffer are filled, and how far the text is printed after them.
#[derive(Drop)]
pub struct Filled {
    pub count: usize,
    pub next: Option<Tally>,
}

// Before the first line.
pub fn start() -> Option<Tally>
    ensures { result ≡ start }
{
    Some(Tally::default())
}

// The line of a quote after those tallied.
fn quote_line(tally: Tally, reply: Reply) -> Printed
    requires { tally_count tally < max_quotes }
    ensures { view_printed result ≡ quote_step tally (view_reply reply) }
{
    Printed {
        line: reply_line(tally.quotes() + 1, reply),
        kind: LineKind::from(reply),
        next: Some(tally.with(reply)),
    }
}

// The line that comes after those of the quotes tallied.
#[tactic(auto, using(crate::proofs::Cases::step_cases))]
pub fn next_line(sheet: &[u8], tally: Tally) -> Printed
    ensures { view_printed result ≡ step sheet.now tally }
{
    if let Err(refused) = quotes_in(sheet) {
        return Printed {
            line: refused_line(refused.refusal.number()),
            kind: LineKind::RefusedSheet,
            next: None,
        };
    }
    match reply(sheet, tally.quotes()) {
        Some(reply) => quote_line(tally, reply),
        None => Printed {
            line: closing_line(tally),
            kind: LineKind::Tally,
            next: None,
        },
    }
}

// As many whole next lines as the buffer holds, at its start.
pub fn fill(sheet: &[u8], progress: Option<Tally>, out: &mut [u8]) -> Filled
    ensures { view_filled result out.new
        ≡ filled_with out.old (part sheet.now progress (length out.old)) }
{
    let mut count: usize = 0;
    let mut next = progress;
    while let Some(tally) = next {
        let printed = next_line(sheet, tally);
        let Some(more) = place(printed.line.as_slice(), &mut out[count..]) else {
            return Filled { count, next };
        };
        count += more;
        next = printed.next;
    }
    Filled { count, next }
}
