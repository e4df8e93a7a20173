//! Helpers on binary64 numbers. Each is total and equals a definition of `specs/Helpers.antt` or of the logic's IEEE 754.
#![tactic(auto)]

ghost use Rattle.std.specs.Prelude.{◌≡◌};
ghost use Rattle.std.specs.Float.{binary64};
ghost use Rattle.std.specs.Float.Ieee.{to_bits, of_bits};
ghost use Rattle.std.specs.Float.Ieee.Scale.{finite};
ghost use Rattle.number.specs.Helpers.{abs_of, max_of, min_of, clamp_of, magnitude_at_most, number_fit, same_bits};

mod words;

pub use words::{exponent_field, high_word, magnitude_bits, sign_bit};

// 2^20, the greatest magnitude that refusals 1, 17 and 18 let through.
const GREATEST: f64 = 1048576.0;

// The bits of a number. The compiled code's NaNs may have any pattern, so one pattern stands for them all.
pub fn to_bits(x: f64) -> u64
    ensures { result ≡ to_bits binary64 x }
{
    if x.is_nan() {
        0x7ff8_0000_0000_0000
    } else {
        f64::to_bits(x)
    }
}

// The number with these bits: each NaN pattern gives a NaN.
pub fn from_bits(bits: u64) -> f64
    ensures { result ≡ of_bits binary64 bits }
{
    if 0x7ff0_0000_0000_0000 < (bits & 0x7fff_ffff_ffff_ffff) {
        f64::NAN
    } else {
        f64::from_bits(bits)
    }
}

// The absolute value: the sign bit cleared, and a NaN for a NaN.
// Kept (4): std's `abs` compares with 0 twice; in a C model by clang at -O3 it takes 11 instructions, and this one 7.
pub fn abs(x: f64) -> f64
    ensures { result ≡ abs_of x }
{
    if x.is_nan() {
        x
    } else {
        f64::from_bits(f64::to_bits(x) & 0x7fff_ffff_ffff_ffff)
    }
}

// The larger of two numbers, or the one that is no NaN.
// Kept (4): std's `max` and `min` leave open which of 0 and -0 is answered, and the definitions name the first.
pub fn max(a: f64, b: f64) -> f64
    ensures { result ≡ max_of a b }
{
    if a.is_nan() {
        b
    } else if b.is_nan() {
        a
    } else if a < b {
        b
    } else {
        a
    }
}

// The smaller of two numbers, or the one that is no NaN.
// Kept (4): as `max`.
pub fn min(a: f64, b: f64) -> f64
    ensures { result ≡ min_of a b }
{
    if a.is_nan() {
        b
    } else if b.is_nan() {
        a
    } else if b < a {
        b
    } else {
        a
    }
}

// The end overstepped, else the number itself. A NaN oversteps none, and no end that is a NaN is overstepped.
// Kept (4): std's `clamp` asks that the ends are in order, and this one takes any.
pub fn clamp(x: f64, lo: f64, hi: f64) -> f64
    ensures { result ≡ clamp_of x lo hi }
{
    if x < lo {
        lo
    } else if hi < x {
        hi
    } else {
        x
    }
}

// Neither a NaN nor an infinity: std's method, under the word that the definitions have for it.
pub fn is_finite(x: f64) -> bool
    ensures { result ≡ finite x }
{
    x.is_finite()
}

// Whether the magnitude of x is at most the limit; never of a NaN.
pub fn magnitude_at_most(x: f64, limit: f64) -> bool
    ensures { result ≡ magnitude_at_most x limit }
{
    abs(x) <= limit
}

// Finite, and at most 2^20 in magnitude.
pub fn number_fit(x: f64) -> bool
    ensures { result ≡ number_fit x }
{
    magnitude_at_most(x, GREATEST)
}

// Equal in bits: -0 and +0 differ, and all NaNs are one.
// Kept (4): a derived == would be that of numbers, for which -0 equals +0 and no NaN equals itself.
pub fn same_bits(a: f64, b: f64) -> bool
    ensures { result ≡ same_bits a b }
{
    to_bits(a) == to_bits(b)
}
