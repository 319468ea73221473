// The entry: lengths are tested, then each place's quote is solved and written.
ghost use Rattle.std.specs.Prelude.{◌≡◌, length, Ok};
ghost use Rattle.explicit_black.specs.Replies.{view_refusal};
ghost use Rattle.ladder.specs.Ladder.{length_refusal, solved_ladder, ladder};
ghost use Rattle.ladder.specs.Replies.{view_ladder};

use crate::place::{Place, Shared};
use crate::strike_root::StrikeRoots;
use explicit_black::refusal::{Refusal, Refused};

const MAX_STRIKES: usize = 500;

// The first length test that applies.
#[tactic(auto, unfolding(crate::specs::Ladder::length_refusal))]
fn length_refusal(
    strikes: usize,
    prices: usize,
    totals: usize,
    volatilities: usize,
    counts: usize,
    refusals: usize,
) -> Result<(), Refusal>
    ensures { view_refusal result ≡ length_refusal strikes prices totals volatilities counts refusals }
{
    if prices != strikes
        || totals != strikes
        || volatilities != strikes
        || counts != strikes
        || refusals != strikes
    {
        return Err(Refusal::UnequalLengths);
    }
    if strikes > MAX_STRIKES {
        return Err(Refusal::TooManyStrikes);
    }
    Ok(())
}

// Solves each place and writes its four values; hands back how many strike roots were taken.
fn solve_places(
    shared: Shared,
    strikes: &[f64],
    prices: &[f64],
    totals: &mut [f64],
    volatilities: &mut [f64],
    counts: &mut [u64],
    refusals: &mut [u32],
) -> u64
    requires { length_refusal (length strikes.now) (length prices.now) (length totals.old) (length volatilities.old) (length counts.old)
        (length refusals.old) ≡ 0 }
    ensures { view_ladder (Ok result) totals.new volatilities.new counts.new refusals.new
        ≡ solved_ladder shared.side shared.forward shared.time strikes.now prices.now }
{
    let mut roots = StrikeRoots::none();
    for i in 0..strikes.len() {
        let place = Place::from(shared.solve_place(prices[i], strikes[i], &mut roots));
        totals[i] = place.total;
        volatilities[i] = place.volatility;
        counts[i] = place.count;
        refusals[i] = place.number;
    }
    roots.taken()
}

// Each place of the four lent slices gets what the quote by itself gives: its figures, 0 where it is refused, its count, and
// its refusal number or 0. A refused ladder leaves them as they were. Hands back how many strike roots were taken.
#[tactic(auto, unfolding(crate::specs::Ladder::ladder))]
pub fn implied_black_volatility_ladder(
    side: u32,
    forward: f64,
    time: f64,
    strikes: &[f64],
    prices: &[f64],
    totals: &mut [f64],
    volatilities: &mut [f64],
    counts: &mut [u64],
    refusals: &mut [u32],
) -> Result<u64, Refused>
    ensures { view_ladder result totals.new volatilities.new counts.new refusals.new
        ≡ ladder side forward time strikes.now prices.now
        totals.old volatilities.old counts.old refusals.old }
{
    length_refusal(
        strikes.len(),
        prices.len(),
        totals.len(),
        volatilities.len(),
        counts.len(),
        refusals.len(),
    )?;
    // the roots of forward and time are taken once, before the first place, which the contract cannot say
    let shared = Shared::new(side, forward, time);
    Ok(solve_places(
        shared,
        strikes,
        prices,
        totals,
        volatilities,
        counts,
        refusals,
    ))
}
