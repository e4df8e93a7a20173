//! fdlibm 5.3's reduction of a large angle by multiples of pi/2, with the digits of 2/pi: the last branch of e_rem_pio2.c, and
//! k_rem_pio2.c as it calls it, with prec 2 (jk = jp = 4). The steps and the names are the C's, and each function equals the definition of
//! `specs/` that is written from the lines that it stands for.
#![tactic(auto)]

pub mod machine; // (int), floor, scalbn
mod digits;
mod sums;
mod table;

ghost use Rattle.std.specs.Prelude.{◌≡◌, ◌≤◌, ◌≤ℤ◌, pos, negsuc, eqb, false};
ghost use Rattle.loops.specs.Loop.{pick};
ghost use Rattle.number.specs.Operators.{◌==?◌};
ghost use Rattle.number.specs.Helpers.{positive_zero};
ghost use Rattle.number.specs.Words.{high_word};
ghost use Rattle.remainder.specs.Kernel.{joined_of, kernel_of};
ghost use Rattle.remainder.specs.Large.{scaled_of, pieces_of, jx_of, large_of};

use machine::int;

// The quadrant, n modulo 4, and the angle that is left: y0 with its tail y1.
// Kept (1): the quadrant is a number, which the C reckons with (n & 3, -n) before its switch tells the four apart.
#[derive(Clone, Copy)]
pub struct Reduction {
    pub quadrant: u64,
    pub y0: f64,
    pub y1: f64,
}

// What stands where the C would leave its arrays.
const EXHAUSTED: Reduction = Reduction {
    quadrant: 0,
    y0: f64::NAN,
    y1: f64::NAN,
};

// "check if recomputation is needed".
fn too_few(iq: &[u32; 21], z: f64, jz: usize) -> bool
    requires { (4 ≤ jz) × (jz ≤ 19) }
    ensures { result ≡ pick (z ==? positive_zero) (eqb (joined_of iq.now jz) 0) false }
{
    z == 0.0 && digits::joined(iq, jz) == 0
}

// __kernel_rem_pio2(x, y, e0, nx, 2, ipio2), for jx = nx - 1, jv and q0.
fn kernel(x: &[f64; 3], jx: usize, jv: usize, q0: i32) -> Reduction
    requires { (jx ≤ 2) × (jv ≤ 41) × (negsuc 26 ≤ℤ q0) × (q0 ≤ℤ pos 2) }
    ensures { result ≡ kernel_of x.now jx jv q0 }
{
    let mut f = [0.0; 20];
    let mut q = [0.0; 21];
    digits::first_digits(&mut f, jv, jx);
    digits::first_terms(&mut q, x, &f, jx);
    let mut jz = table::JK;
    for _ in 0..16usize {
        let mut iq = [0; 21];
        let at = digits::one_pass(&mut iq, &q, jz, q0);
        if !too_few(&iq, at.z, jz) {
            return sums::finish(&mut iq, at, &mut q, jz, q0);
        }
        let Some(k) = digits::needed(&iq) else {
            return EXHAUSTED;
        };
        if 19 - (jx + jz) < k {
            return EXHAUSTED;
        }
        digits::more(&mut f, &mut q, x, jx, jv, jz, k);
        jz += k;
    }
    EXHAUSTED
}

// "set z = scalbn(|x|,ilogb(x)-23)".
fn scaled(x: f64) -> f64
    ensures { result ≡ scaled_of x }
{
    number::from_bits((number::magnitude_bits(x) & 0xf_ffff_ffff_ffff) + 0x4160_0000_0000_0000)
}

// tx[]: the angle's digits in pieces of 24.
fn pieces(z: f64) -> [f64; 3]
    ensures { result ≡ pieces_of z }
{
    let t0 = int(z) as f64;
    let z1 = (z - t0) * digits::TWO24;
    let t1 = int(z1) as f64;
    [t0, t1, (z1 - t1) * digits::TWO24]
}

// nx - 1, "skip zero term".
fn last_piece(tx: &[f64; 3]) -> usize
    ensures is { result ≡ jx_of tx.now }
    ensures within { result ≤ 2 }
{
    if tx[2] == 0.0 {
        if tx[1] == 0.0 { 0 } else { 1 }
    } else {
        2
    }
}

// The reduction of |x|, for an x that is finite and above the medium range.
pub fn large(x: f64) -> Reduction
    requires { (0x41300000 ≤ high_word x) × (high_word x ≤ 0x7fefffff) }
    ensures { result ≡ large_of x }
{
    let e = number::exponent_field(x);
    let jv = e.saturating_sub(1049) / 24;
    let q0 = (e as i32 - 1046) - 24 * (jv as i32 + 1);
    let tx = pieces(scaled(x));
    kernel(&tx, last_piece(&tx), jv as usize, q0)
}
