// A tally of a sheet's first quotes: how many finite answers, infinite answers and refusals they have.
ghost use Rattle.std.specs.Prelude.{◌≡◌, ◌<◌};
ghost use Rattle.explicit_black.specs.Replies.{view_reply};
ghost use Rattle.xdr_sheet.specs.Sheet.{max_quotes};
ghost use Rattle.xdr_sheet.specs.Tally.{tally_with, tally_count};

use arithmetic::basic::is_infinite;
use explicit_black::quote::Reply;

#[derive(Clone, Copy, Debug, Default, PartialEq, Eq)]
pub struct Tally {
    pub finite: u32,
    pub infinite: u32,
    pub refusals: u32,
}

impl Tally {
    // How many quotes are tallied.
    pub(crate) fn quotes(self) -> u64
        ensures { result ≡ tally_count self }
    {
        self.finite as u64 + self.infinite as u64 + self.refusals as u64
    }

    // The tally with one quote more, by its reply. An answer is infinite where its volatility is, whatever its total.
    pub(crate) fn with(self, reply: Reply) -> Tally
        requires { tally_count self < max_quotes }
        ensures { result ≡ tally_with self (view_reply reply) }
    {
        match reply {
            Ok(answer) if is_infinite(answer.volatility) => Tally {
                infinite: self.infinite + 1,
                ..self
            },
            Ok(_) => Tally {
                finite: self.finite + 1,
                ..self
            },
            Err(_) => Tally {
                refusals: self.refusals + 1,
                ..self
            },
        }
    }
}
