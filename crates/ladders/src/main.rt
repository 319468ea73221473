// Ladders of quotes. Standard input holds ladders one after the other, as XDR writes them: an unsigned side, the doubles
// forward and time, six unsigned lengths (strikes, prices, totals, volatilities, counts, refusals), then the strikes and the
// prices. Each ladder gives a line, `L` and how many strike roots were taken or `R` with its refusal and count, and then a line
// for each place of the longest of the four lent slices: total volatility and volatility by their bits, or `nan`, count and
// refusal number, or `-` where a slice is shorter. A length over 512, and input that ends inside a ladder, end the run, and so does a read or a
// write that fails, whose error is reported.
#![tactic(auto)]

mod text;

use ladder::ladder::implied_black_volatility_ladder;
use records::read_record;
use std::io;
use std::io::Read;
use std::iter::from_fn;
use text::{Places, write_places, write_reply};
use xdr_sheet::xdr::{double, unsigned};

const HEAD_BYTES: usize = 44;

const DOUBLE_BYTES: usize = 8;

// How many places a buffer holds.
const ROOM: usize = 512;

// What a ladder's quotes share, and how many places each slice has.
#[derive(Clone, Copy)]
struct Head {
    side: u32,
    forward: f64,
    time: f64,
    strikes: usize,
    prices: usize,
    totals: usize,
    volatilities: usize,
    counts: usize,
    refusals: usize,
}

impl From<[u8; HEAD_BYTES]> for Head {
    fn from(bytes: [u8; HEAD_BYTES]) -> Head {
        let length = |at| unsigned(&bytes, at) as usize;
        Head {
            side: unsigned(&bytes, 0),
            forward: double(&bytes, 4),
            time: double(&bytes, 12),
            strikes: length(20),
            prices: length(24),
            totals: length(28),
            volatilities: length(32),
            counts: length(36),
            refusals: length(40),
        }
    }
}

// Reads as many doubles as there are places, and no more than `count`. `None`: there are not so many places, or doubles.
fn read_doubles<'a>(
    input: &mut impl Read,
    buffer: &'a mut [f64],
    count: usize,
) -> io::Result<Option<&'a [f64]>> {
    for place in buffer.iter_mut().take(count) {
        let Some(bytes) = read_record::<_, DOUBLE_BYTES>(input)? else {
            return Ok(None);
        };
        *place = double(&bytes, 0);
    }
    Ok(buffer.get(..count))
}

// Solves a ladder and writes its lines. `None`: a slice would be longer than the buffers. The lent slices hold other values before.
fn solve(rt: &impl Print, head: &Head, strikes: &[f64], prices: &[f64]) -> io::Result<Option<()>> {
    let mut totals = [-1.0f64; ROOM];
    let mut volatilities = [-2.0f64; ROOM];
    let mut counts = [u64::MAX; ROOM];
    let mut refusals = [u32::MAX; ROOM];
    let (Some(totals), Some(volatilities), Some(counts), Some(refusals)) = (
        totals.get_mut(..head.totals),
        volatilities.get_mut(..head.volatilities),
        counts.get_mut(..head.counts),
        refusals.get_mut(..head.refusals),
    ) else {
        return Ok(None);
    };
    let reply = implied_black_volatility_ladder(
        head.side,
        head.forward,
        head.time,
        strikes,
        prices,
        totals,
        volatilities,
        counts,
        refusals,
    );
    write_reply(rt, reply)?;
    write_places(
        rt,
        Places {
            totals,
            volatilities,
            counts,
            refusals,
        },
    )?;
    Ok(Some(()))
}

// Reads a ladder and writes its lines. `None`: the input ends inside it, or it is longer than the buffers.
fn answer_ladder(rt: &impl Print, input: &mut impl Read) -> io::Result<Option<()>> {
    let Some(head) = read_record(input)?.map(Head::from) else {
        return Ok(None);
    };
    let mut strikes = [0.0f64; ROOM];
    let mut prices = [0.0f64; ROOM];
    let Some(strikes) = read_doubles(input, &mut strikes, head.strikes)? else {
        return Ok(None);
    };
    let Some(prices) = read_doubles(input, &mut prices, head.prices)? else {
        return Ok(None);
    };
    solve(rt, &head, strikes, prices)
}

fn main(rt: HostRuntime) -> io::Result<()> {
    let mut input = rt.stdin();
    let answers = from_fn(|| answer_ladder(&rt, &mut input).transpose());
    // no input has so many: a `for` is to have an end
    for answer in answers.take(usize::MAX) {
        answer?;
    }
    Ok(())
}
