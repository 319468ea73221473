// The refusals, by the tests that they are of.
ghost use Rattle.std.specs.Prelude.{◌≡◌};
ghost use Rattle.explicit_black.specs.Refusal.{number};

// Why figures, a sheet, a ladder or a write are refused.
#[derive(Clone, Copy, Debug, PartialEq, Eq)]
pub enum Refusal {
    UnknownSide = 1,
    NotFinite = 2,
    NotPositive = 3,
    NegativeTime = 4,
    PriceAtExpiry = 5,
    AboveBound = 6,
    BelowIntrinsic = 7,
    AboveNormalisedBound = 8,
    NoVolatility = 9,
    MalformedSheet = 10,
    NegativeVolatility = 11,
    UnequalLengths = 12,
    TooManyStrikes = 13,
    UnwritableOffset = 14,
    FactorNotPositive = 15,
}

impl Refusal {
    // The number that is shown.
    pub fn number(self) -> u32
        ensures { result ≡ number self }
    {
        self as u32
    }
}

// What an entry hands back of what it refuses: why, and how many evaluations were made.
#[derive(Clone, Copy, Debug, PartialEq, Eq)]
pub struct Refused {
    pub refusal: Refusal,
    pub count: u64,
}

// A refusal before any evaluation.
impl From<Refusal> for Refused {
    ghost from_gives = { λ refusal refused. (refused.refusal ≡ refusal) × (refused.count ≡ 0) };

    fn from(refusal: Refusal) -> Refused {
        Refused { refusal, count: 0 }
    }
}
