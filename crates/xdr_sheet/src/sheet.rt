// A sheet: an unsigned count, then for each quote an unsigned side and the doubles price, forward,
// strike, time and factor.
ghost use Rattle.std.specs.Prelude.{◌≡◌, ◌+◌, ◌≤◌, length};
ghost use Rattle.explicit_black.specs.Replies.{view_reply};
ghost use Rattle.xdr_sheet.specs.Sheet.{quote_bytes, size, reply_from, sheet_reply};
ghost use Rattle.xdr_sheet.specs.Replies.{terms_at, view_size, view_sheet_reply};

use crate::xdr::{double, unsigned};
use explicit_black::discount::implied_black_volatility_discounted;
use explicit_black::quote::Reply;
use explicit_black::refusal::{Refusal, Refused};
use explicit_black::terms::OptionTerms;

const COUNT_BYTES: usize = 4;

const QUOTE_BYTES: usize = 44;

const MAX_QUOTES: u32 = 1000;

// The longest sheet.
pub const MAX_BYTES: usize = COUNT_BYTES + QUOTE_BYTES * MAX_QUOTES as usize;

// Where the figures of a quote start, past its side.
pub(crate) const PRICE: usize = 4;

const FORWARD: usize = 12;

const STRIKE: usize = 20;

pub(crate) const TIME: usize = 28;

const FACTOR: usize = 36;

const NO_SHEET: Refused = Refused {
    refusal: Refusal::MalformedSheet,
    count: 0,
};

// How many quotes a sheet has. Too short for a count, too many quotes, or not as long as their count says: refused.
#[tactic(auto, using(crate::proofs::Cases::size_cases))]
pub fn quotes_in(sheet: &[u8]) -> Result<u32, Refused>
    ensures { view_size result ≡ size sheet.now }
{
    if sheet.len() < COUNT_BYTES {
        return Err(NO_SHEET);
    }
    let count = unsigned(sheet, 0);
    if MAX_QUOTES < count {
        return Err(NO_SHEET);
    }
    if sheet.len() == COUNT_BYTES + QUOTE_BYTES * (count as usize) {
        Ok(count)
    } else {
        Err(NO_SHEET)
    }
}

// The terms of the quote, or of the price, whose record starts at `at`. A figure whose bytes are not all there is read as 0.
pub fn terms(s: &[u8], at: u32) -> OptionTerms
    ensures { result ≡ terms_at s.now at }
{
    let at = at as usize;
    OptionTerms {
        side: unsigned(s, at),
        forward: double(s, at + FORWARD),
        strike: double(s, at + STRIKE),
        time: double(s, at + TIME),
    }
}

// The reply of the quote that starts at `at`.
#[tactic(auto, unfolding(crate::specs::Sheet::reply_from))]
fn quote(sheet: &[u8], at: u32) -> Reply
    requires { at + quote_bytes ≤ length sheet.now }
    ensures { view_reply result ≡ reply_from sheet.now at }
{
    let price = double(sheet, at as usize + PRICE);
    let factor = double(sheet, at as usize + FACTOR);
    implied_black_volatility_discounted(terms(sheet, at), price, factor)
}

// The reply of the quote with `index` quotes before it, if the sheet has one. Each quote of a refused sheet is refused as the sheet is.
#[tactic(auto, using(crate::specs::Laws::Sheet::quote_none))]
pub fn reply(sheet: &[u8], index: u64) -> Option<Reply>
    ensures { view_sheet_reply result ≡ sheet_reply sheet.now index }
{
    match quotes_in(sheet) {
        Ok(count) if index < count as u64 => {
            let at = COUNT_BYTES + QUOTE_BYTES * (index as usize);
            Some(quote(sheet, at as u32))
        }
        Ok(_) => None,
        Err(refused) => Some(Err(refused)),
    }
}
