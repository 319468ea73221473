// Whole numbers of 128 bits in two halves of 64, a form that is required: sums and differences wrap on each half, and the
// carry and the borrow are found by comparison. The rest goes by u128.
ghost use Rattle.std.specs.Prelude.{◌≡◌, ◌+◌, ◌-◌, ◌*◌, ◌/◌, ◌^◌, ◌<◌, ◌≤◌};
ghost use Rattle.std.specs.Float.Ieee as Ieee;
ghost use Rattle.arithmetic.specs.Internal.Pair.{val, jammed};

use std::ops::{Add, Shl, Sub};

// Binary digits of one half of a pair, and of both.
pub(crate) const WORD: u64 = 64;

const BOTH_WORDS: u64 = 128;

const LOWER_WORD: u128 = 0xffff_ffff_ffff_ffff;

// Binary digits of half a word.
pub(crate) const HALF_WORD: u64 = 32;

// The number hi * 2^64 + lo. The upper half stands first, so the derived order is that of the numbers.
#[derive(Clone, Copy, PartialEq, PartialOrd)]
pub struct Pair {
    pub hi: u64,
    pub lo: u64,
}

// A sum that fits.
impl Add for Pair {
    type Output = Pair;

    ghost can_add = { λ a b. val a + val b < 2 ^ 128 };

    ghost add_gives = { λ a b r. val r ≡ val a + val b };

    fn add(self, b: Pair) -> Pair {
        let lo = self.lo.wrapping_add(b.lo);
        let hi = self.hi.wrapping_add(b.hi);
        if lo < self.lo {
            Pair {
                hi: hi.wrapping_add(1),
                lo,
            }
        } else {
            Pair { hi, lo }
        }
    }
}

// A difference that is not negative.
impl Sub for Pair {
    type Output = Pair;

    ghost can_sub = { λ a b. val b ≤ val a };

    ghost sub_gives = { λ a b r. val r ≡ val a - val b };

    fn sub(self, b: Pair) -> Pair {
        let lo = self.lo.wrapping_sub(b.lo);
        let hi = self.hi.wrapping_sub(b.hi);
        if self.lo < b.lo {
            Pair {
                hi: hi.wrapping_sub(1),
                lo,
            }
        } else {
            Pair { hi, lo }
        }
    }
}

// A number times 2^d that fits, for d below 64, as % tells the compiler.
impl Shl<u64> for Pair {
    type Output = Pair;

    ghost can_shl = { λ a d. (d < 64) × (val a * 2 ^ d < 2 ^ 128) };

    ghost shl_gives = { λ a d r. val r ≡ val a * 2 ^ d };

    fn shl(self, d: u64) -> Pair {
        Pair::from(u128::from(self) << (d % WORD))
    }
}

impl From<u64> for Pair {
    ghost from_gives = { λ n r. val r ≡ n };

    fn from(n: u64) -> Pair {
        Pair { hi: 0, lo: n }
    }
}

impl From<u128> for Pair {
    ghost from_gives = { λ n r. val r ≡ n };

    fn from(n: u128) -> Pair {
        Pair {
            hi: (n >> WORD) as u64,
            lo: (n & LOWER_WORD) as u64,
        }
    }
}

impl From<Pair> for u128 {
    ghost from_gives = { λ a n. n ≡ val a };

    fn from(a: Pair) -> u128 {
        (u128::from(a.hi) << WORD) + u128::from(a.lo)
    }
}

impl Pair {
    // The product of two words.
    pub(crate) fn product(u: u64, v: u64) -> Pair
        ensures { val result ≡ u * v }
    {
        Pair {
            hi: high(u, v),
            lo: u.wrapping_mul(v),
        }
    }

    // The number divided by 2^d, cut to a whole number, whose last bit is set too where anything but 0 was cut. From 64 on
    // the lower word is cut first.
    pub(crate) fn jam(self, d: u64) -> Pair
        ensures { val result ≡ jammed (val self) d }
    {
        if d < WORD {
            let even = ((u128::from(self) >> d) >> 1u64) << 1u64;
            let dropped = self.lo << (WORD - 1 - d);
            Pair::from(even + u128::from(dropped.min(1)))
        } else {
            Pair::from(jam(self.hi | self.lo.min(1), d - WORD))
        }
    }

    // How many binary digits the number has: none for 0.
    pub(crate) fn digits(self) -> u64
        ensures { result ≡ Ieee.size (val self) }
    {
        BOTH_WORDS - u128::from(self).leading_zeros() as u64
    }
}

// The same of a word.
fn jam(n: u64, d: u64) -> u64
    ensures { result ≡ jammed n d }
{
    if d < WORD {
        let even = ((n >> d) >> 1u64) << 1u64;
        let dropped = n << (WORD - 1 - d);
        even + dropped.min(1)
    } else {
        n.min(1)
    }
}

// The upper word of the product of two words: the processor's own product gives it.
pub(crate) fn high(u: u64, v: u64) -> u64
    ensures { result ≡ u * v / 2 ^ 64 }
{
    ((u as u128 * v as u128) >> WORD) as u64
}
