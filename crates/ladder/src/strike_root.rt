// The roots of the places' strikes, and how many were taken.
ghost use Rattle.std.specs.Prelude.{◌≡◌, ◌+◌, ◌<◌};
ghost use Rattle.arithmetic.specs.Sqrt.{sqrt};

use arithmetic::sqrt::sqrt;

// How many strike roots were taken. Its field is private: no other code makes one but by `none`, or changes it but by `take`.
#[derive(Drop)]
pub struct StrikeRoots {
    taken: u64,
}

impl StrikeRoots {
    pub(crate) fn none() -> StrikeRoots
        ensures { result.taken ≡ 0 }
    {
        StrikeRoots { taken: 0 }
    }

    pub(crate) fn taken(&self) -> u64
        ensures { result ≡ self.now.taken }
    {
        self.taken
    }

    // The root of a strike, which is counted.
    pub(crate) fn take(&mut self, strike: f64) -> f64
        requires { self.old.taken < 500 }
        ensures { (result ≡ sqrt strike) × (self.new.taken ≡ self.old.taken + 1) }
    {
        self.taken += 1;
        sqrt(strike)
    }
}
