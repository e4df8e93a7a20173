//! fdlibm 5.3's sine and cosine: the same constants, the same order of operations, the same tests on the high words. Each function
//! equals the definition of `specs/` that is written from the C function of its name.
#![tactic(auto)]

ghost use Rattle.std.specs.Prelude.{◌≡◌, ◌<◌};
ghost use Rattle.number.specs.Words.{high_word};
ghost use Rattle.fdlibm.specs.Sine.{sin_of, cos_of, sin_at, cos_at};

use remainder::Reduction;

mod kernel; // k_sin.c, k_cos.c

// The sine and the cosine of one angle.
#[derive(Clone, Copy)]
struct SinCos {
    sin: f64,
    cos: f64,
}

// Both of a reduced angle, by its quadrant.
#[inline(always)]
fn both_at(a: Reduction) -> SinCos
    ensures { (result.sin ≡ sin_at a) × (result.cos ≡ cos_at a) }
{
    let k = kernel::kernels(a.y0, a.y1, true);
    match a.quadrant {
        0 => k,
        1 => SinCos {
            sin: k.cos,
            cos: -k.sin,
        },
        2 => SinCos {
            sin: -k.sin,
            cos: -k.cos,
        },
        _ => SinCos {
            sin: -k.cos,
            cos: k.sin,
        },
    }
}

// Both of an angle above the medium range; NaNs for one that is infinite or a NaN.
// Kept (5): out of line, so that neither its test nor the call of the reduction's kernel takes time of the other angles: with it in `both` a
// check took 2.6% longer, and a trace 1.5% (docs/SPEED.md, "With today's kit").
#[cold]
#[inline(never)]
fn both_large(x: f64) -> SinCos
    requires { 0x413921fb < high_word x }
    ensures { (result.sin ≡ sin_of x) × (result.cos ≡ cos_of x) }
{
    if 0x7ff0_0000 <= number::high_word(x) {
        return SinCos {
            sin: x - x,
            cos: x - x,
        };
    }
    both_at(reduction::rem_pio2(x))
}

// The sine and the cosine by one reduction.
fn both(x: f64) -> SinCos
    ensures { (result.sin ≡ sin_of x) × (result.cos ≡ cos_of x) }
{
    let ix = number::high_word(x);
    if ix <= 0x3fe9_21fb {
        return kernel::kernels(x, 0.0, false);
    }
    if ix <= 0x4139_21fb {
        return both_at(reduction::rem_pio2(x));
    }
    both_large(x)
}

// The sine, with the cosine put into `cos`.
// Kept (5): a struct of the two is stored as two numbers and read back as one piece, which waits: with it a check took 6% longer, and a
// trace 5% (docs/SPEED.md of commit 1228f430, "What was changed").
pub fn sin_cos(x: f64, cos: &mut f64) -> f64
    ensures { (result ≡ sin_of x) × (cos.new ≡ cos_of x) }
{
    let at = both(x);
    *cos = at.cos;
    at.sin
}

// The sine.
pub fn sin(x: f64) -> f64
    ensures { result ≡ sin_of x }
{
    let mut cos = 0.0;
    sin_cos(x, &mut cos)
}

// The cosine.
pub fn cos(x: f64) -> f64
    ensures { result ≡ cos_of x }
{
    let mut cos = 0.0;
    let sin = sin_cos(x, &mut cos);
    cos
}
