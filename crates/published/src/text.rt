// What a line of input asks for, and a value written with so many decimals.
ghost use Rattle.std.specs.Prelude.{◌<◌, ◌≤◌};

use arithmetic::basic::trunc;
use arithmetic::mul_add::mul_add;
use std::io::Result;
use std::num::{nearest_u64_to_f64, truncating_f64_to_u64};

pub const LINE_BYTES: usize = 11;

// The number of a quantity, its argument, and how many decimals the table prints.
#[derive(Drop)]
pub struct Request {
    pub quantity: u64,
    pub argument: f64,
    pub decimals: u64,
}

// The value of a digit; of another byte its low four bits.
fn digit(byte: u8) -> u64
    ensures { result < 16 }
{
    (byte % 16) as u64
}

// The number that two digits write.
fn two_digits(tens: u8, ones: u8) -> u64
    ensures { result < 256 }
{
    digit(tens) * 10 + digit(ones)
}

impl From<[u8; LINE_BYTES]> for Request {
    // The argument is in hundredths, divided by 100 and rounded once.
    fn from(line: [u8; LINE_BYTES]) -> Request {
        let [quantity, _, a, b, _, c, d, _, e, f, _] = line;
        let hundredths = two_digits(a, b) * 100 + two_digits(c, d);
        Request {
            quantity: digit(quantity),
            argument: nearest_u64_to_f64(hundredths) / 100.0,
            decimals: two_digits(e, f),
        }
    }
}

// 10 to that power, for the numbers of decimals that the three tables have; 1 for any other.
fn scale(decimals: u64) -> u64
    ensures { (0 < result) × (result ≤ 10000000000) }
{
    match decimals {
        5 => 100_000,
        7 => 10_000_000,
        10 => 10_000_000_000,
        _ => 1,
    }
}

// The whole number nearest to x times scale, which is below 2^52. `error` is what the product's rounding
// left off, exactly, and the two differences are exact too, so no rounding decides.
fn nearest(x: f64, scale: f64) -> f64 {
    let product = x * scale;
    let error = mul_add(x, scale, -product);
    let whole = trunc(product);
    if product - whole - 0.5 >= -error {
        whole + 1.0
    } else {
        whole
    }
}

// A value in units of the last decimal, to the nearest. There are none for a NaN, a value below 0, or one of 2^64 units or more.
pub fn units(value: f64, decimals: u64) -> Option<u64> {
    let rounded = nearest(value, nearest_u64_to_f64(scale(decimals)));
    if rounded > -1.0 && rounded < 18446744073709551616.0 {
        Some(truncating_f64_to_u64(rounded))
    } else {
        None
    }
}

// Writes a value given in units of the last decimal: the whole, the point and, where there are any, the decimals.
pub fn write_units(rt: &impl Print, units: u64, decimals: u64) -> Result<()> {
    let unit = scale(decimals);
    let whole = units / unit;
    if unit == 1 {
        return println!(rt; "{whole}.");
    }
    let part = units % unit;
    let width = decimals as usize;
    println!(rt; "{whole}.{part:0width$}")
}
