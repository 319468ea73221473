// What a quote and a price have in common.
ghost use Rattle.std.specs.Prelude.{◌≡◌};
ghost use Rattle.explicit_black.specs.Replies.{view_refusal};
ghost use Rattle.explicit_black.specs.Quote.{first_refusal, intrinsic_value, price_bound};

use crate::refusal::Refusal;
use arithmetic::basic::is_finite;

// A call, side 0, or a put, side 1; with another side every entry refuses it.
#[derive(Clone, Copy)]
pub struct OptionTerms {
    pub side: u32,
    pub forward: f64,
    pub strike: f64,
    pub time: f64,
}

impl OptionTerms {
    // The first of tests 1 to 4 that applies. The figure is the price, or the volatility.
    #[tactic(auto, using(crate::proofs::Tests::sides), unfolding(crate::specs::Quote::first_refusal))]
    pub fn first_refusal(self, figure: f64) -> Result<(), Refusal>
        ensures { view_refusal result ≡ first_refusal self.side figure self.forward self.strike self.time }
    {
        if self.side > 1 {
            return Err(Refusal::UnknownSide);
        }
        if !(is_finite(figure)
            && is_finite(self.forward)
            && is_finite(self.strike)
            && is_finite(self.time))
        {
            return Err(Refusal::NotFinite);
        }
        if !(self.forward > 0.0 && self.strike > 0.0) {
            return Err(Refusal::NotPositive);
        }
        if self.time < 0.0 {
            return Err(Refusal::NegativeTime);
        }
        Ok(())
    }

    pub fn intrinsic_value(self) -> f64
        ensures { result ≡ intrinsic_value self.side self.forward self.strike }
    {
        match self.side {
            0 => self.forward - self.strike,
            _ => self.strike - self.forward,
        }
    }

    // No price is above the forward of a call, or the strike of a put.
    pub fn price_bound(self) -> f64
        ensures { result ≡ price_bound self.side self.forward self.strike }
    {
        match self.side {
            0 => self.forward,
            _ => self.strike,
        }
    }
}
