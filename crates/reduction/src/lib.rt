//! The reduction of an angle by multiples of pi/2: e_rem_pio2.c of fdlibm 5.3, with the same constants, the same order of operations and the same
//! tests on the high words. Its last branch, for the large angles, is `remainder::large`.
#![tactic(auto)]

ghost use Rattle.std.specs.Prelude.{◌≡◌, ◌<◌, get_or};
ghost use Rattle.reduction.specs.Reduction.{npio2hw, rem_pio2, taken_of, medium_of, negated_of, by_sign};
ghost use Rattle.number.specs.Operators.{◌⊖◌, ◌⊗◌};
ghost use Rattle.reduction.specs.Reduction.{next_difference, careful_of, refined_of};
ghost use Rattle.reduction.specs.Near.{near_of};

use remainder::Reduction;
use remainder::machine::int;

// A difference r - w that is not taken yet.
#[derive(Clone, Copy)]
struct Difference {
    r: f64,
    w: f64,
}

// Kept (2): each constant is the C's, with its own value.
const INVPIO2: f64 = 6.36619772367581382433e-01;

const PIO2_1: f64 = 1.57079632673412561417e+00;

const PIO2_1T: f64 = 6.07710050650619224932e-11;

const PIO2_2: f64 = 6.07710050630396597660e-11;

const PIO2_2T: f64 = 2.02226624879595063154e-21;

const PIO2_3: f64 = 2.02226624871116645580e-21;

const PIO2_3T: f64 = 8.47842766036889956997e-32;

// What a difference comes to: y0 is its rounded value, and the tail y1 what the rounding left out.
fn taken(d: Difference, quadrant: u64) -> Reduction
    ensures { result ≡ taken_of d quadrant }
{
    let y0 = d.r - d.w;
    Reduction {
        quadrant,
        y0,
        y1: (d.r - y0) - d.w,
    }
}

// t less n times a part of pi/2 that holds 33 digits, with n times what comes after them in w.
// Kept (2): not `next_difference` from a difference of t and 0, since the C takes back no rounding here.
fn plain_difference(t: f64, n: f64, part: f64, rest: f64) -> Difference
    ensures { (result.r ≡ t ⊖ n ⊗ part) × (result.w ≡ n ⊗ rest) }
{
    Difference {
        r: t - n * part,
        w: n * rest,
    }
}

// x less n pi/2 for an n of 1 or -1, by one step, or by two where the high word is that of pi/2.
fn near(x: f64, n: f64, quadrant: u64, ix: u64) -> Reduction
    ensures { result ≡ near_of x n quadrant ix }
{
    let d = plain_difference(x, n, PIO2_1, PIO2_1T);
    if ix != 0x3ff9_21fb {
        return taken(d, quadrant);
    }
    taken(plain_difference(d.r, n, PIO2_2, PIO2_2T), quadrant)
}

// 33 digits more: part holds them, and rest what comes after them.
fn next_difference(d: Difference, n: f64, part: f64, rest: f64) -> Difference
    ensures { result ≡ next_difference d n part rest }
{
    let t = d.r;
    let w = n * part;
    let r = t - w;
    Difference {
        r,
        w: n * rest - ((t - r) - w),
    }
}

// The second step where more than 16 digits cancelled, and the third where more than 49 did.
fn careful(d: Difference, n: f64, ix: u64) -> Difference
    ensures { result ≡ careful_of d n ix }
{
    let j = ix >> 20;
    let e = number::exponent_field(d.r - d.w);
    if j <= e + 16 {
        return d;
    }
    let d2 = next_difference(d, n, PIO2_2, PIO2_2T);
    let e2 = number::exponent_field(d2.r - d2.w);
    if j <= e2 + 49 {
        return d2;
    }
    next_difference(d2, n, PIO2_3, PIO2_3T)
}

// The high word of n pi/2, the C's table: it is that of n times the first part of pi/2, which the reduction forms anyway.
fn npio2_hw(n: u64) -> u64
    requires { n < 32 }
    ensures { result ≡ get_or npio2hw n 0 }
{
    number::high_word(n as f64 * PIO2_1)
}

// The quick test: an n below 32 whose n pi/2 has another high word than the angle needs no second step.
fn refined(d: Difference, whole: u64, n: f64, ix: u64) -> Difference
    ensures { result ≡ refined_of d whole n ix }
{
    if whole < 32 && ix != npio2_hw(whole) {
        return d;
    }
    careful(d, n, ix)
}

// A positive angle t in the medium range, of high word ix.
// Kept (5): inlined, as `rem_pio2` is.
#[inline(always)]
fn medium(t: f64, ix: u64) -> Reduction
    ensures { result ≡ medium_of t ix }
{
    let whole = int(t * INVPIO2 + 0.5) as u64;
    let n = whole as f64;
    let d = refined(plain_difference(t, n, PIO2_1, PIO2_1T), whole, n, ix);
    taken(d, whole & 3)
}

// The same for the angle of the other sign.
fn negated(a: Reduction) -> Reduction
    ensures { result ≡ negated_of a }
{
    Reduction {
        quadrant: (4 - (a.quadrant & 3)) & 3,
        y0: -a.y0,
        y1: -a.y1,
    }
}

// What the magnitude's reduction says of the angle, whose sign bit is `sign`.
fn by_sign(sign: u64, a: Reduction) -> Reduction
    ensures { result ≡ by_sign sign a }
{
    if sign == 0 { a } else { negated(a) }
}

// An angle x less a multiple of pi/2: at most about pi/4 is left.
// Kept (5): inlined in both of its callers, each of which knows which branches it needs.
#[inline(always)]
pub fn rem_pio2(x: f64) -> Reduction
    ensures { result ≡ rem_pio2 x }
{
    let ix = number::high_word(x);
    let sign = number::sign_bit(x);
    if ix <= 0x3fe9_21fb {
        Reduction {
            quadrant: 0,
            y0: x,
            y1: 0.0,
        }
    } else if ix < 0x4002_d97c {
        if sign == 0 {
            near(x, 1.0, 1, ix)
        } else {
            near(x, -1.0, 3, ix)
        }
    } else if ix <= 0x4139_21fb {
        by_sign(sign, medium(number::abs(x), ix))
    } else if 0x7ff0_0000 <= ix {
        Reduction {
            quadrant: 0,
            y0: x - x,
            y1: x - x,
        }
    } else {
        by_sign(sign, remainder::large(x))
    }
}
