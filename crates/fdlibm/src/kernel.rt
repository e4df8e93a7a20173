//! The sine and the cosine of an angle of at most about pi/4, given as x with a tail y: k_sin.c and k_cos.c.
ghost use Rattle.std.specs.Prelude.{◌≡◌, ◌≤◌};
ghost use Rattle.number.specs.Words.{high_word};
ghost use Rattle.fdlibm.specs.Kernel.{kernel_sin, kernel_cos, qx_of};

use crate::SinCos;

// Kept (2): each constant is the C's, with its own value.
const S1: f64 = -1.66666666666666324348e-01;

const S2: f64 = 8.33333333332248946124e-03;

const S3: f64 = -1.98412698298579493134e-04;

const S4: f64 = 2.75573137070700676789e-06;

const S5: f64 = -2.50507602534068634195e-08;

const S6: f64 = 1.58969099521155010221e-10;

const C1: f64 = 4.16666666666666019037e-02;

const C2: f64 = -1.38888888888741095749e-03;

const C3: f64 = 2.48015872894767294178e-05;

const C4: f64 = -2.75573143513906633035e-07;

const C5: f64 = 2.08757232129817482790e-09;

const C6: f64 = -1.13596475577881948265e-11;

// The sine of x + y, where tail says whether there is a y at all.
// Kept (1): the flag is the C's iy. The cosine reads y with a tail and without one, so of an Option it would have to make the 0 again.
fn kernel_sin(x: f64, y: f64, tail: bool) -> f64
    requires { 0x3e400000 ≤ high_word x }
    ensures { result ≡ kernel_sin x y tail }
{
    let z = x * x;
    let v = z * x;
    let r = S2 + z * (S3 + z * (S4 + z * (S5 + z * S6)));
    if tail {
        x - ((z * (0.5 * y - v * r) - y) - v * S1)
    } else {
        x + v * (S1 + z * r)
    }
}

// About a quarter of the angle whose high word is ix: a number with few digits.
fn quarter(ix: u64) -> f64
    requires { 0x3fd33333 ≤ ix }
    ensures { result ≡ qx_of ix }
{
    if 0x3fe9_0000 < ix {
        0.28125
    } else {
        f64::from_bits((ix - 0x0020_0000) << 32)
    }
}

// The cosine of x + y, where ix is the high word of x.
fn kernel_cos(x: f64, y: f64, ix: u64) -> f64
    requires { (ix ≡ high_word x) × (0x3e400000 ≤ ix) }
    ensures { result ≡ kernel_cos x y }
{
    let z = x * x;
    let r = z * (C1 + z * (C2 + z * (C3 + z * (C4 + z * (C5 + z * C6)))));
    if ix < 0x3fd3_3333 {
        return 1.0 - (0.5 * z - (z * r - x * y));
    }
    let qx = quarter(ix);
    let hz = 0.5 * z - qx;
    (1.0 - qx) - (hz - (z * r - x * y))
}

// Both, after one test of the high word.
// Kept (1): the flag goes on to the sine, as the C's iy.
pub(crate) fn kernels(x: f64, y: f64, tail: bool) -> SinCos
    ensures { (result.sin ≡ kernel_sin x y tail) × (result.cos ≡ kernel_cos x y) }
{
    let ix = number::high_word(x);
    if ix < 0x3e40_0000 {
        return SinCos { sin: x, cos: 1.0 };
    }
    SinCos {
        sin: kernel_sin(x, y, tail),
        cos: kernel_cos(x, y, ix),
    }
}
