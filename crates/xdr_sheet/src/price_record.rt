// A price's record: laid out as a quote of a sheet up to its time, with the volatility in the price's place. And its number.
ghost use Rattle.std.specs.Prelude.{◌≡◌};
ghost use Rattle.explicit_black.specs.Replies.{view_price_reply};
ghost use Rattle.xdr_sheet.specs.PriceRecord.{price_reply, first_number, number_after};

use crate::sheet::{PRICE, TIME, terms};
use crate::xdr::double;
use explicit_black::price::{PriceReply, black_price};

const DOUBLE_BYTES: usize = 8;

// The time is its last figure.
pub const RECORD_BYTES: usize = TIME + DOUBLE_BYTES;

// The reply of the record at the start of the bytes. A figure whose bytes are not all there is read as 0.
#[tactic(auto, unfolding(crate::specs::PriceRecord::price_reply))]
pub fn price_reply(s: &[u8]) -> PriceReply
    ensures { view_price_reply result ≡ price_reply s.now }
{
    black_price(terms(s, 0), double(s, PRICE))
}

// The number of a record. Its field is private, so that no other code makes one but by `first` and `after`.
#[derive(Clone, Copy)]
pub struct RecordNumber {
    number: u64,
}

impl RecordNumber {
    pub fn first() -> Option<RecordNumber>
        ensures { result ≡ first_number }
    {
        Some(RecordNumber { number: 1 })
    }

    pub fn number(self) -> u64
        ensures { result ≡ self.number }
    {
        self.number
    }

    // The number of the next record, or none after the last number.
    #[tactic(auto, unfolding(crate::specs::PriceRecord::number_after))]
    pub fn after(self) -> Option<RecordNumber>
        ensures { result ≡ number_after self }
    {
        let number = self.number.checked_add(1)?;
        Some(RecordNumber { number })
    }
}
