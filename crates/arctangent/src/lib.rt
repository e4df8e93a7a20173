//! fdlibm 5.3's arc tangent, and that of two arguments: the same constants, the same order of operations, the same tests on the high words.
//! Each function equals the definition of `specs/` that is written from the C function of its name.
#![tactic(auto)]

ghost use Rattle.std.specs.Prelude.{◌≡◌};
ghost use Rattle.arctangent.specs.Arctangent.{atan_of, atan2_of};

mod arctangent; // the parts of s_atan.c and e_atan2.c

// The arc tangent, from -pi/2 to pi/2.
pub fn atan(x: f64) -> f64
    ensures { result ≡ atan_of x }
{
    let ix = number::high_word(x);
    let sign = number::sign_bit(x);
    if 0x4410_0000 <= ix {
        arctangent::atan_far(x, sign)
    } else if ix < 0x3fdc_0000 {
        if ix < 0x3e20_0000 {
            x
        } else {
            x - x * arctangent::atan_series(x)
        }
    } else {
        let z = arctangent::atan_folded(number::abs(x), ix);
        if sign == 0 { z } else { -z }
    }
}

// The angle of the point (x, y), from -pi to pi.
pub fn atan2(y: f64, x: f64) -> f64
    ensures { result ≡ atan2_of y x }
{
    if x.is_nan() {
        return x + y;
    }
    if y.is_nan() {
        return x + y;
    }
    if number::to_bits(x) == 0x3ff0_0000_0000_0000 {
        return atan(y);
    }
    arctangent::angle(y, x)
}
