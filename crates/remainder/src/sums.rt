//! The angle that is left, from its digits: k_rem_pio2.c from "chop off zero terms" to its end, for prec 2.

ghost use Rattle.std.specs.Prelude.{◌≡◌, ◌≤◌, ◌<◌, ◌+◌, ◌≤ℤ◌, pos, negsuc};
ghost use Rattle.remainder.specs.Kernel.{chopped, chop_of, break_of, chopped_of, values_of};
ghost use Rattle.remainder.specs.Kernel.{part_of, parts_of, down_of, up_of, by_half, compressed_of, finish_of};

use crate::digits::{Pass, TWO24, TWON24};
use crate::machine::{int, scalbn};
use crate::table::JK;
use crate::{Reduction, table};

// jz and q0 of k_rem_pio2.c.
#[derive(Clone, Copy)]
struct Held {
    jz: usize,
    q0: i32,
}

// "chop off zero terms".
fn chop(iq: &[u32; 21], jz: usize, q0: i32) -> Held
    requires { (jz ≤ 19) × (negsuc 26 ≤ℤ q0) × (q0 ≤ℤ pos 2) }
    ensures is { result ≡ chop_of iq.now jz q0 }
    ensures within { (result.jz ≤ 19) × (negsuc 506 ≤ℤ result.q0) × (result.q0 ≤ℤ pos 2) }
{
    let mut q0 = q0 - 24;
    for i in (0..jz).rev() {
        if iq[i] != 0 {
            return Held { jz: i, q0 };
        }
        q0 -= 24;
    }
    Held { jz: 0, q0 }
}

// "break z into 24-bit if necessary".
fn break_up(iq: &mut [u32; 21], z: f64, jz: usize, q0: i32) -> Held
    requires { (jz ≤ 19) × (negsuc 26 ≤ℤ q0) × (q0 ≤ℤ pos 2) }
    ensures is { chopped iq.new result ≡ break_of iq.old z jz q0 }
    ensures within { (result.jz ≤ 20) × (negsuc 506 ≤ℤ result.q0) × (result.q0 ≤ℤ pos 26) }
{
    if TWO24 <= z {
        let fw = int(TWON24 * z) as f64;
        iq[jz] = int(z - TWO24 * fw);
        iq[jz + 1] = int(fw);
        Held {
            jz: jz + 1,
            q0: q0 + 24,
        }
    } else {
        iq[jz] = int(z);
        Held { jz, q0 }
    }
}

// The digits that are summed: those up to the last that is not 0, or z's too.
fn chopped(iq: &mut [u32; 21], z: f64, jz: usize, q0: i32) -> Held
    requires { (jz ≤ 19) × (negsuc 26 ≤ℤ q0) × (q0 ≤ℤ pos 2) }
    ensures is { chopped iq.new result ≡ chopped_of iq.old z jz q0 }
    ensures within { (result.jz ≤ 20) × (negsuc 506 ≤ℤ result.q0) × (result.q0 ≤ℤ pos 26) }
{
    if z == 0.0 {
        chop(iq, jz, q0)
    } else {
        break_up(iq, scalbn(z, -q0), jz, q0)
    }
}

// "convert integer "bit" chunk to floating-point value": q[], from its end.
fn values(q: &mut [f64; 21], iq: &[u32; 21], at: Held)
    requires { (at.jz ≤ 20) × (negsuc 506 ≤ℤ at.q0) × (at.q0 ≤ℤ pos 26) }
    ensures { q.new ≡ values_of iq.now at q.old }
{
    let mut fw = scalbn(1.0, at.q0);
    for i in (0..at.jz + 1).rev() {
        q[i] = fw * iq[i] as f64;
        fw *= TWON24;
    }
}

// fq[jz - i], for i = jz - t: the products of pi/2's parts and the values that meet there.
fn part(q: &[f64; 21], jz: usize, t: usize) -> f64
    requires { (jz ≤ 20) × (t ≤ jz) }
    ensures { result ≡ part_of q.now jz t }
{
    let last = if t < JK { t } else { JK };
    let mut fw = 0.0;
    for k in 0..last + 1 {
        fw += table::pio2(k) * q[jz - t + k];
    }
    fw
}

// fq[].
fn parts(fq: &mut [f64; 21], q: &[f64; 21], jz: usize)
    requires { jz ≤ 20 }
    ensures { fq.new ≡ parts_of q.now jz fq.old }
{
    for t in 0..jz + 1 {
        fq[t] = part(q, jz, t);
    }
}

// fq[jz] + ... + fq[0], from the last on.
fn down(fq: &[f64; 21], jz: usize) -> f64
    requires { jz ≤ 20 }
    ensures { result ≡ down_of fq.now jz }
{
    let mut fw = 0.0;
    for i in (0..jz + 1).rev() {
        fw += fq[i];
    }
    fw
}

// fq[0] - fw, and fq[1] to fq[jz] added.
fn up(fq: &[f64; 21], jz: usize, fw: f64) -> f64
    requires { jz ≤ 20 }
    ensures { result ≡ up_of fq.now jz fw }
{
    let mut rest = fq[0] - fw;
    for i in 1..jz + 1 {
        rest += fq[i];
    }
    rest
}

// The sum in the direction that ih tells.
fn by_half(ih: u32, fw: f64) -> f64
    ensures { result ≡ by_half ih fw }
{
    if ih == 0 { fw } else { -fw }
}

// "compress fq[] into y[]", the case of prec 2.
fn compressed(fq: &[f64; 21], jz: usize, n: u32, ih: u32) -> Reduction
    requires { jz ≤ 20 }
    ensures { result ≡ compressed_of fq.now jz n ih }
{
    let y0 = down(fq, jz);
    let y1 = up(fq, jz, y0);
    Reduction {
        quadrant: (n & 3) as u64,
        y0: by_half(ih, y0),
        y1: by_half(ih, y1),
    }
}

// The reduction, from the digits and n, ih, z.
pub(crate) fn finish(
    iq: &mut [u32; 21],
    at: Pass,
    q: &mut [f64; 21],
    jz: usize,
    q0: i32,
) -> Reduction
    requires { (jz ≤ 19) × (negsuc 26 ≤ℤ q0) × (q0 ≤ℤ pos 2) }
    ensures { result ≡ finish_of iq.old at q.old jz q0 }
{
    let held = chopped(iq, at.z, jz, q0);
    values(q, iq, held);
    let mut fq = [0.0; 21];
    parts(&mut fq, q, held.jz);
    compressed(&fq, held.jz, at.n, at.ih)
}
