// Words of XDR (RFC 4506), the highest byte first. Where their bytes are not all there, 0 is read.
ghost use Rattle.std.specs.Prelude.{◌≡◌};
ghost use Rattle.std.specs.Float.{binary64};
ghost use Rattle.std.specs.Float.Ieee.{of_bits, to_bits};
ghost use Rattle.xdr_sheet.specs.Xdr.{unsigned, hyper, double};
ghost use Rattle.xdr_sheet.specs.Internal.Bytes.{bytes_at};

use arithmetic::format::{INFINITY, SIGN};

const QUIET_NAN: u64 = 0x7ff8_0000_0000_0000;

// The N bytes from `at` on, if they are all there.
fn bytes_at<const N: usize>(s: &[u8], at: usize) -> Option<[u8; N]>
    ensures { result ≡ bytes_at s.now at N }
{
    s.get(at..)?.first_chunk().copied()
}

// An unsigned integer, in a word.
pub fn unsigned(s: &[u8], at: usize) -> u32
    ensures { result ≡ unsigned s.now at }
{
    bytes_at(s, at).map_or(0, u32::from_be_bytes)
}

// An unsigned hyper integer, in two words.
fn hyper(s: &[u8], at: usize) -> u64
    ensures { result ≡ hyper s.now at }
{
    bytes_at(s, at).map_or(0, u64::from_be_bytes)
}

// The value of a pattern. `from_bits` is not defined on the patterns of NaN.
pub fn value(bits: u64) -> f64
    ensures { result ≡ of_bits binary64 bits }
{
    if bits % SIGN > INFINITY {
        return f64::NAN;
    }
    f64::from_bits(bits)
}

// The pattern of x. NaN has many: here it is QUIET_NAN.
#[tactic(auto, using(crate::proofs::Patterns::nan_pattern))]
pub fn pattern(x: f64) -> u64
    ensures { result ≡ to_bits binary64 x }
{
    if x.is_nan() {
        return QUIET_NAN;
    }
    x.to_bits()
}

// A double: the value of the pattern in two words.
#[tactic(auto, unfolding(crate::specs::Xdr::double))]
pub fn double(s: &[u8], at: usize) -> f64
    ensures { result ≡ double s.now at }
{
    value(hyper(s, at))
}
