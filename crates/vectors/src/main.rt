// Runs one function of the layers, or the normalised entry, on given bits. Standard input holds records of 28 bytes: the
// function's number and three doubles, as XDR writes them. Each record gives a line: the 16 digits
// of the result's bits, or `nan`; for the normalised entry a sheet's line without its number. A number
// that names no function ends the run, and so does input that ends inside a record, or a read or a write that fails,
// whose error is reported.
#![tactic(auto)]

mod text;

use arithmetic::basic::{max, min, signum, trunc};
use arithmetic::exp::exp;
use arithmetic::ln::{ln, ln_1p};
use arithmetic::mul_add::mul_add;
use arithmetic::sqrt::sqrt;
use bs_option_price::{negative_abs_log_moneyness, normalised_black};
use explicit_black::quote::{Reply, implied_black_volatility_normalised};
use inverse_gaussian::curves::{Allowance, inverse_gaussian_cdf, inverse_gaussian_survival};
use records::read_record;
use special_function::error_function::{erf_cody, erfc_cody, erfcx_cody, erfinv};
use special_function::normal_distribution::{inverse_norm_cdf, norm_cdf, norm_pdf};
use std::io;
use std::iter::from_fn;
use text::write_outcome;
use xdr_sheet::xdr::{double, unsigned};

const RECORD_BYTES: usize = 28;

// What a record gives: a function's value, or a reply of the normalised entry.
#[derive(Drop)]
pub enum Outcome {
    Number(f64),
    Replied(Reply),
}

// A record: the number of a function, and three doubles, of which it takes the first, the first two or all.
#[derive(Clone, Copy)]
struct Call {
    number: u32,
    a: f64,
    b: f64,
    c: f64,
}

impl From<[u8; RECORD_BYTES]> for Call {
    fn from(bytes: [u8; RECORD_BYTES]) -> Call {
        Call {
            number: unsigned(&bytes, 0),
            a: double(&bytes, 4),
            b: double(&bytes, 12),
            c: double(&bytes, 20),
        }
    }
}

impl Call {
    // The functions of layer one, by their numbers.
    fn arithmetic(self) -> Option<f64> {
        match self.number {
            1 => Some(sqrt(self.a)),
            2 => Some(mul_add(self.a, self.b, self.c)),
            3 => Some(exp(self.a)),
            4 => Some(ln(self.a)),
            5 => Some(ln_1p(self.a)),
            6 => Some(trunc(self.a)),
            7 => Some(signum(self.a)),
            8 => Some(max(self.a, self.b)),
            9 => Some(min(self.a, self.b)),
            _ => None,
        }
    }

    // The functions of layer two.
    fn special_function(self) -> Option<f64> {
        match self.number {
            10 => Some(erf_cody(self.a)),
            11 => Some(erfc_cody(self.a)),
            12 => Some(erfcx_cody(self.a)),
            13 => Some(erfinv(self.a)),
            14 => Some(norm_pdf(self.a)),
            15 => Some(norm_cdf(self.a)),
            16 => Some(inverse_norm_cdf(self.a)),
            _ => None,
        }
    }

    // The functions of layer three.
    fn bs_option_price(self) -> Option<f64> {
        match self.number {
            17 => Some(normalised_black(self.a, self.b, self.c)),
            18 => Some(negative_abs_log_moneyness(self.a, self.b)),
            _ => None,
        }
    }

    // The curves of layer four, each allowed the one evaluation that it makes.
    fn inverse_gaussian(self) -> Option<f64> {
        let mut allowed = Allowance::new(1);
        match self.number {
            20 => {
                let evaluation = inverse_gaussian_cdf(self.a, self.b, &mut allowed);
                evaluation.ok().map(|e| e.value)
            }
            21 => {
                let evaluation = inverse_gaussian_survival(self.a, self.b, &mut allowed);
                evaluation.ok().map(|e| e.value)
            }
            _ => None,
        }
    }

    // What the function gives. `None`: the number names none.
    fn outcome(self) -> Option<Outcome> {
        if self.number == 19 {
            let reply = implied_black_volatility_normalised(self.a, self.b);
            return Some(Outcome::Replied(reply));
        }
        self.arithmetic()
            .or_else(|| self.special_function())
            .or_else(|| self.bs_option_price())
            .or_else(|| self.inverse_gaussian())
            .map(Outcome::Number)
    }
}

fn main(rt: HostRuntime) -> io::Result<()> {
    let mut input = rt.stdin();
    let records = from_fn(|| read_record(&mut input).transpose());
    // no input has so many: a `for` is to have an end
    for record in records.take(usize::MAX) {
        let Some(outcome) = Call::from(record?).outcome() else {
            break;
        };
        write_outcome(&rt, outcome)?;
    }
    Ok(())
}
