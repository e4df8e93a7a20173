//! What the C has from its language and its library: (int), floor, scalbn.

ghost use Rattle.std.specs.Prelude.{◌≡◌, ◌≤◌, ◌<◌, ◌^◌, ◌≤ℤ◌, pos, negsuc};
ghost use Rattle.std.specs.Float.Ieee.{to_unsigned};
ghost use Rattle.remainder.specs.Machine.{int, floor, power, scalbn};

// The whole part of a number that is not negative, at most 2^w - 1; 0 of a negative one.
// Kept (4): over std's `saturating_f64_to_u64` sine and cosine beyond 3pi/4 take 4% longer than with this one (docs/parts/fdlibm.md).
#[inline(always)]
fn truncated(x: f64, w: u64) -> u64
    requires { w ≤ 53 }
    ensures { result ≡ to_unsigned w x }
{
    if x.is_nan() {
        return 0;
    }
    let bits: u64 = f64::to_bits(x);
    let exponent = bits >> 52;
    if exponent < 1023 {
        0
    } else if exponent < 1023 + w {
        ((bits & 0xf_ffff_ffff_ffff) + 0x10_0000_0000_0000) >> (1075 - exponent)
    } else if exponent < 2048 {
        (1 << w) - 1
    } else {
        0
    }
}

// C's (int) of a number that is not negative.
#[inline(always)]
pub fn int(x: f64) -> u32
    ensures is { result ≡ int x }
    ensures within { result < 2 ^ 31 }
{
    truncated(x, 31) as u32
}

// C's floor of a number from 0 to 2^53.
#[inline(always)]
pub(crate) fn floor(x: f64) -> f64
    ensures { result ≡ floor x }
{
    truncated(x, 53) as f64
}

// 2^n.
#[inline(always)]
fn power(n: i32) -> f64
    requires { (negsuc 1021 ≤ℤ n) × (n ≤ℤ pos 1023) }
    ensures { result ≡ power n }
{
    f64::from_bits(((n + 1023) as u64) << 52)
}

// x 2^n.
#[inline(always)]
pub(crate) fn scalbn(x: f64, n: i32) -> f64
    requires { (negsuc 1021 ≤ℤ n) × (n ≤ℤ pos 1023) }
    ensures { result ≡ scalbn x n }
{
    x * power(n)
}
