//! The digits of the angle times 2/pi: k_rem_pio2.c up to the check whether recomputation is needed.

ghost use Rattle.std.specs.Prelude.{◌≡◌, ◌≤◌, ◌<◌, ◌+◌, ◌-◌, ◌/◌, ◌^◌, ◌≤ℤ◌, pos, negsuc};
ghost use Rattle.remainder.specs.Kernel.{first_digits, first_terms, term_of, terms, more_of, distilled, distill_of, trimmed_of, cut_of};
ghost use Rattle.remainder.specs.Kernel.{complemented, opposite_of, carried_of, complement_of, masked_of, flipped_of, passed, turned_of, pass_of};
ghost use Rattle.remainder.specs.Kernel.{joined_of, needed_of};

use crate::machine::{floor, int, scalbn};
use crate::table;
use crate::table::JK;

pub(crate) const TWO24: f64 = 1.67772160000000000000e+07;

pub(crate) const TWON24: f64 = 5.96046447753906250000e-08;

// n, ih and z of k_rem_pio2.c.
#[derive(Clone, Copy)]
pub(crate) struct Pass {
    pub(crate) n: u32,
    pub(crate) ih: u32,
    pub(crate) z: f64,
}

// f[], as far as the first terms read it.
pub(crate) fn first_digits(f: &mut [f64; 20], jv: usize, jx: usize)
    requires { (jv ≤ 41) × (jx ≤ 2) }
    ensures { f.new ≡ first_digits jv jx f.old }
{
    for i in 0..jx + JK + 1 {
        f[i] = if jv + i < jx {
            0.0
        } else {
            table::digit(jv + i - jx)
        };
    }
}

// q[i]: the products of the angle's pieces and the digits of 2/pi that meet at i.
fn term(x: &[f64; 3], f: &[f64; 20], jx: usize, i: usize) -> f64
    requires { (jx ≤ 2) × (jx + i ≤ 19) }
    ensures { result ≡ term_of x.now f.now jx i }
{
    let mut fw = 0.0;
    for j in 0..jx + 1 {
        fw += x[j] * f[jx + i - j];
    }
    fw
}

// q[], up to q[jk].
pub(crate) fn first_terms(q: &mut [f64; 21], x: &[f64; 3], f: &[f64; 20], jx: usize)
    requires { jx ≤ 2 }
    ensures { q.new ≡ first_terms x.now f.now jx q.old }
{
    for i in 0..JK + 1 {
        q[i] = term(x, f, jx, i);
    }
}

// k terms more.
pub(crate) fn more(
    f: &mut [f64; 20],
    q: &mut [f64; 21],
    x: &[f64; 3],
    jx: usize,
    jv: usize,
    jz: usize,
    k: usize,
)
    requires { (jv ≤ 41) × (jx ≤ 2) × (jx + jz + k ≤ 19) }
    ensures { terms f.new q.new jz ≡ more_of x.now jx jv k (terms f.old q.old jz) }
{
    for i in jz + 1..jz + k + 1 {
        f[jx + i] = table::digit(jv + i);
        q[i] = term(x, f, jx, i);
    }
}

// "distill q[] into iq[] reversingly": the digits, and z.
fn distill(iq: &mut [u32; 21], q: &[f64; 21], jz: usize) -> f64
    requires { jz ≤ 19 }
    ensures { distilled iq.new result ≡ distill_of q.now jz iq.old }
{
    let mut z = q[jz];
    for i in 0..jz {
        let fw = int(TWON24 * z) as f64;
        iq[i] = int(z - TWO24 * fw);
        z = q[jz - 1 - i] + fw;
    }
    z
}

// "actual value of z", "trim off integer >= 8".
fn trimmed(z: f64, q0: i32) -> f64
    requires { (negsuc 26 ≤ℤ q0) × (q0 ≤ℤ pos 2) }
    ensures { result ≡ trimmed_of z q0 }
{
    let scaled = scalbn(z, q0);
    scaled - 8.0 * floor(scaled * 0.125)
}

// n and ih.
#[derive(Clone, Copy)]
struct Half {
    n: u32,
    ih: u32,
}

// The bits of the last digit above the point are n's, where q0 > 0; and whether what is left of q is above a half.
fn cut(iq: &mut [u32; 21], n: u32, z: f64, jz: usize, q0: i32) -> Half
    requires { (jz ≤ 19) × (0 < jz) × (negsuc 26 ≤ℤ q0) × (q0 ≤ℤ pos 2) × (n < 2 ^ 31) }
    ensures is { record { digits = iq.new; n = result.n; ih = result.ih } ≡ cut_of iq.old n z jz q0 }
    ensures within { result.n < 2 ^ 31 + 2 ^ 10 }
{
    let last = jz - 1;
    if q0 > 0 {
        let i = iq[last] >> (24 - q0);
        iq[last] -= i << (24 - q0);
        return Half {
            n: n + i,
            ih: iq[last] >> (23 - q0),
        };
    }
    if q0 == 0 {
        return Half {
            n,
            ih: iq[last] >> 23,
        };
    }
    Half {
        n,
        ih: if 0.5 <= z { 2 } else { 0 },
    }
}

// A digit of 1 - q, for a digit j of q, and whether one before it was not 0.
fn opposite(j: u32, carry: bool) -> u32
    ensures { result ≡ opposite_of j carry }
{
    if carry {
        return 0xff_ffff_u32.saturating_sub(j);
    }
    if j == 0 {
        return 0;
    }
    0x100_0000_u32.saturating_sub(j)
}

// Whether a digit so far was not 0.
fn carried(j: u32, carry: bool) -> bool
    ensures { result ≡ carried_of j carry }
{
    if carry {
        return true;
    }
    j != 0
}

// "compute 1-q": each digit's complement; whether one was not 0.
fn complement(iq: &mut [u32; 21], jz: usize) -> bool
    requires { jz ≤ 19 }
    ensures { complemented iq.new result ≡ complement_of iq.old jz }
{
    let mut carry = false;
    for i in 0..jz {
        let j = iq[i];
        iq[i] = opposite(j, carry);
        carry = carried(j, carry);
    }
    carry
}

// q0 > 0: the last digit without its bits above the point.
fn mask(iq: &mut [u32; 21], jz: usize, q0: i32)
    requires { (jz ≤ 19) × (0 < jz) }
    ensures { iq.new ≡ masked_of iq.old jz q0 }
{
    let last = jz - 1;
    if q0 == 1 {
        iq[last] &= 0x7f_ffff;
    } else if q0 == 2 {
        iq[last] &= 0x3f_ffff;
    }
}

// ih == 2: 1 - z.
fn flipped(z: f64, ih: u32, carry: bool, q0: i32) -> f64
    requires { (negsuc 26 ≤ℤ q0) × (q0 ≤ℤ pos 2) }
    ensures { result ≡ flipped_of z ih carry q0 }
{
    if ih != 2 {
        return z;
    }
    if carry {
        (1.0 - z) - scalbn(1.0, q0)
    } else {
        1.0 - z
    }
}

// ih > 0, "q > 0.5": 1 - q in the place of q.
fn turned(iq: &mut [u32; 21], at: Half, z: f64, jz: usize, q0: i32) -> Pass
    requires { (jz ≤ 19) × (0 < jz) × (negsuc 26 ≤ℤ q0) × (q0 ≤ℤ pos 2) × (at.n < 2 ^ 31 + 2 ^ 10) }
    ensures { passed iq.new result ≡ turned_of (record { digits = iq.old; n = at.n; ih = at.ih }) z jz q0 }
{
    if at.ih == 0 {
        return Pass {
            n: at.n,
            ih: at.ih,
            z,
        };
    }
    let carry = complement(iq, jz);
    mask(iq, jz, q0);
    Pass {
        n: at.n + 1,
        ih: at.ih,
        z: flipped(z, at.ih, carry, q0),
    }
}

// One pass from `recompute`: the digits, and n, ih, z.
pub(crate) fn one_pass(iq: &mut [u32; 21], q: &[f64; 21], jz: usize, q0: i32) -> Pass
    requires { (jz ≤ 19) × (0 < jz) × (negsuc 26 ≤ℤ q0) × (q0 ≤ℤ pos 2) }
    ensures { passed iq.new result ≡ pass_of iq.old q.now jz q0 }
{
    let rest = distill(iq, q, jz);
    let whole = trimmed(rest, q0);
    let n = int(whole);
    let z = whole - n as f64;
    let at = cut(iq, n, z, jz, q0);
    turned(iq, at, z, jz, q0)
}

// The digits from jk on, joined: 0 where all are.
pub(crate) fn joined(iq: &[u32; 21], jz: usize) -> u32
    requires { (4 ≤ jz) × (jz ≤ 19) }
    ensures { result ≡ joined_of iq.now jz }
{
    let mut j = 0;
    for i in (JK..jz).rev() {
        j |= iq[i];
    }
    j
}

// "k = no. of terms needed"; none where the digits below jk are all 0.
pub(crate) fn needed(iq: &[u32; 21]) -> Option<usize>
    ensures { result ≡ needed_of iq.now }
{
    for k in 1..JK + 1 {
        if iq[JK - k] != 0 {
            return Some(k);
        }
    }
    None
}
