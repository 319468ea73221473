// Values of the error functions as a table prints them. Standard input holds lines of 11 bytes, as
// `1 00.02 10`: the number of a quantity, its argument, and how many decimals the table has. Each gives
// a line: the quantity, rounded to so many decimals. A number that names no quantity ends the run, and so does input
// that ends inside a line, or a read or a write that fails, whose error is reported.
//
// `stdin` and `stdout` are values of Abramowitz and Stegun, Handbook of Mathematical Functions, 1964:
// table 7.1, erf x; table 7.3, x exp(x^2) erfc x; table 26.2, -log10 Q(x). They were set
// down from memory and have not been held beside a copy of the book; each agrees with mpmath at 60
// digits. None is nearer than 0.0028 units of its last digit to where it would round to another.
#![tactic(auto)]

mod text;

use arithmetic::ln::ln;
use arithmetic::sqrt::sqrt;
use records::read_record;
use special_function::error_function::{erf_cody, erfc_cody, erfcx_cody};
use special_function::normal_distribution::norm_cdf;
use std::io;
use std::iter::from_fn;
use text::{LINE_BYTES, Request, units, write_units};

// The logarithm to base 10 of 1 / q.
fn negative_log10(q: f64) -> f64 {
    -(ln(q) / ln(10.0))
}

// A quantity at x, if the number names one. Q(x) is the normal distribution's upper tail.
fn quantity(number: u64, x: f64) -> Option<f64> {
    match number {
        // erf x
        1 => Some(erf_cody(x)),
        2 => Some(1.0 - erfc_cody(x)),
        // x exp(x^2) erfc x
        3 => Some(x * erfcx_cody(x)),
        // -log10 Q(x)
        4 => Some(negative_log10(0.5 * erfc_cody(x / sqrt(2.0)))),
        5 => Some(negative_log10(norm_cdf(-x))),
        _ => None,
    }
}

fn main(rt: HostRuntime) -> io::Result<()> {
    let mut input = rt.stdin();
    let lines = from_fn(|| read_record::<_, LINE_BYTES>(&mut input).transpose());
    // no input has so many: a `for` is to have an end
    for line in lines.take(usize::MAX) {
        let request = Request::from(line?);
        let value = quantity(request.quantity, request.argument);
        let Some(units) = value.and_then(|x| units(x, request.decimals)) else {
            break;
        };
        write_units(&rt, units, request.decimals)?;
    }
    Ok(())
}
