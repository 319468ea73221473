// A line of text, in a buffer that holds any. The longest has 78 bytes: two numbers of 20 digits, two of 16, and six bytes between and after them.
ghost use Rattle.std.specs.Prelude.{◌≡◌, [], ◌++◌, ◌+◌, ◌≤◌, length, Ok};
ghost use Rattle.explicit_black.specs.Price.{refusal as refusal_of_price};
ghost use Rattle.explicit_black.specs.Quote.{refusal};
ghost use Rattle.explicit_black.specs.Replies.{view_reply, view_price_reply};
ghost use Rattle.xdr_sheet.specs.Text.{line_bytes, decimal_digits, hexadecimal_digits};
ghost use Rattle.xdr_sheet.specs.Text.{decimal, hexadecimal, line, price_line, closing, refused_sheet};
ghost use Rattle.xdr_sheet.specs.Internal.Lines.{written, bytes_placed, buffer_after};

use crate::price_record::RecordNumber;
use crate::tally::Tally;
use crate::xdr::pattern;
use explicit_black::price::PriceReply;
use explicit_black::quote::{Answer, Reply};

pub const LINE_BYTES: usize = 80;

const DECIMAL_DIGITS: usize = 20;

const HEXADECIMAL_DIGITS: usize = 16;

// Its text is the first `length` of the bytes; those after it are no part of the line, whatever they are.
#[derive(Clone, Copy)]
pub struct Line {
    bytes: [u8; LINE_BYTES],
    length: usize,
}

impl Line {
    fn empty() -> Line
        ensures { written result ≡ [] }
    {
        Line {
            bytes: [0; LINE_BYTES],
            length: 0,
        }
    }

    // Its text is a number so far.
    fn numbered(number: u64) -> Line
        ensures text { written result ≡ decimal number }
        ensures few { length (written result) ≤ decimal_digits }
    {
        let mut line = Line::empty();
        line.decimal(number);
        line
    }

    // How many bytes its text has.
    pub fn count(self) -> usize
        ensures text { result ≡ length (written self) }
        ensures fits { result ≤ line_bytes }
    {
        self.length.min(LINE_BYTES)
    }

    // Its text.
    pub fn as_slice(&self) -> &[u8]
        ensures text { result.now ≡ written self.now }
        ensures fits { length result.now ≤ line_bytes }
    {
        &self.bytes[..self.count()]
    }

    fn bytes(&mut self, s: &[u8])
        requires { length (written self.old) + length s.now ≤ line_bytes }
        ensures { written self.new ≡ written self.old ++ s.now }
    {
        let start = self.count();
        let end = start + s.len();
        self.bytes[start..end].copy_from_slice(s);
        self.length = end;
    }

    #[tactic(auto, using(crate::proofs::Digits::decimal_is))]
    fn decimal(&mut self, n: u64)
        requires { length (written self.old) + decimal_digits ≤ line_bytes }
        ensures text { written self.new ≡ written self.old ++ decimal n }
        ensures few { length (written self.new) ≤ length (written self.old) + decimal_digits }
    {
        let mut digits = [0u8; DECIMAL_DIGITS];
        let k = io::decimal(n, &mut digits);
        self.bytes(&digits[..k]);
    }

    #[tactic(auto, using(crate::proofs::Digits::hexadecimal_is))]
    fn hexadecimal(&mut self, bits: u64)
        requires { length (written self.old) + hexadecimal_digits ≤ line_bytes }
        ensures text { written self.new ≡ written self.old ++ hexadecimal bits }
        ensures all { length (written self.new) ≡ length (written self.old) + hexadecimal_digits }
    {
        let mut digits = [0u8; HEXADECIMAL_DIGITS];
        let k = io::hex(bits, HEXADECIMAL_DIGITS, &mut digits);
        self.bytes(&digits[..k]);
    }
}

// The line of a reply with the quote's number.
#[tactic(auto, unfolding(crate::specs::Text::line))]
pub fn reply_line(number: u64, reply: Reply) -> Line
    ensures { written result ≡ line number (view_reply reply) }
{
    match reply {
        Ok(answer) => answer_line(number, answer),
        Err(refused) => refusal_line(number, refused.refusal.number(), refused.count),
    }
}

#[tactic(auto, unfolding(crate::specs::Text::line, crate::specs::Text::answer_fields))]
fn answer_line(number: u64, answer: Answer) -> Line
    ensures { written result ≡ line number (view_reply (Ok answer)) }
{
    let mut line = Line::numbered(number);
    line.bytes(b" V ");
    line.hexadecimal(pattern(answer.total));
    line.bytes(b" ");
    line.hexadecimal(pattern(answer.volatility));
    line.bytes(b" ");
    line.decimal(answer.count);
    line.bytes(b"\n");
    line
}

// The line of a refusal with any number, of a quote or of a price.
#[tactic(auto, unfolding(crate::specs::Text::line, crate::specs::Text::price_line, crate::specs::Text::refusal_fields))]
pub fn refusal_line(number: u64, reason: u32, count: u64) -> Line
    ensures quote { written result ≡ line number (refusal reason count) }
    ensures price { written result ≡ price_line number (refusal_of_price reason count) }
{
    let mut line = Line::numbered(number);
    line.bytes(b" R ");
    line.decimal(reason as u64);
    line.bytes(b" ");
    line.decimal(count);
    line.bytes(b"\n");
    line
}

// The line of a price's reply with its record's number.
#[tactic(auto, unfolding(crate::specs::Text::price_line, crate::specs::Text::price_fields))]
pub fn price_line(number: RecordNumber, reply: PriceReply) -> Line
    ensures { written result ≡ price_line number.number (view_price_reply reply) }
{
    match reply {
        Ok(price) => {
            let mut line = Line::numbered(number.number());
            line.bytes(b" P ");
            line.hexadecimal(pattern(price));
            line.bytes(b"\n");
            line
        }
        Err(refused) => refusal_line(number.number(), refused.refusal.number(), refused.count),
    }
}

// The last line: how many finite answers, infinite answers and refusals the quotes have.
#[tactic(auto, unfolding(crate::specs::Text::closing))]
pub fn closing_line(tally: Tally) -> Line
    ensures { written result ≡ closing tally }
{
    let mut line = Line::empty();
    line.bytes(b"T ");
    line.decimal(tally.finite as u64);
    line.bytes(b" ");
    line.decimal(tally.infinite as u64);
    line.bytes(b" ");
    line.decimal(tally.refusals as u64);
    line.bytes(b"\n");
    line
}

// The line of a refused sheet.
#[tactic(auto, unfolding(crate::specs::Text::refused_sheet))]
pub fn refused_line(number: u32) -> Line
    ensures { written result ≡ refused_sheet number }
{
    let mut line = Line::empty();
    line.bytes(b"S ");
    line.decimal(number as u64);
    line.bytes(b"\n");
    line
}

// Puts a text at the start of a lent buffer: how many bytes that were, or none where the buffer has no room for it and is as before.
#[tactic(auto, unfolding(crate::specs::Internal::Lines::bytes_placed, crate::specs::Internal::Lines::buffer_after))]
pub fn place(text: &[u8], out: &mut [u8]) -> Option<usize>
    ensures { (result ≡ bytes_placed text.now out.old)
        × (out.new ≡ buffer_after text.now out.old) }
{
    if out.len() < text.len() {
        return None;
    }
    out[..text.len()].copy_from_slice(text);
    Some(text.len())
}
