//! The parts of the arc tangent, s_atan.c, and of the arc tangent of two arguments, e_atan2.c.
ghost use Rattle.std.specs.Prelude.{◌≡◌, ◌^◌, ◌<◌};
ghost use Rattle.arctangent.specs.Arctangent.{series_of, far_of, from_known, folded_of, by_signs, on_axis, upright, far_along, quotient_of, around_of, angle_of};

// Kept (2): each constant is the C's, with its own value.
// Kept (6): those of atanhi[], atanlo[] and aT[] stand alone, since an array read at fixed indices alone is no plainer.
const ATANHI_0: f64 = 4.63647609000806093515e-01;

const ATANHI_1: f64 = 7.85398163397448278999e-01;

const ATANHI_2: f64 = 9.82793723247329054082e-01;

const ATANHI_3: f64 = 1.57079632679489655800e+00;

const ATANLO_0: f64 = 2.26987774529616870924e-17;

const ATANLO_1: f64 = 3.06161699786838301793e-17;

const ATANLO_2: f64 = 1.39033110312309984516e-17;

const ATANLO_3: f64 = 6.12323399573676603587e-17;

const A0: f64 = 3.33333333333329318027e-01;

const A1: f64 = -1.99999999998764832476e-01;

const A2: f64 = 1.42857142725034663711e-01;

const A3: f64 = -1.11111104054623557880e-01;

const A4: f64 = 9.09088713343650656196e-02;

const A5: f64 = -7.69187620504482999495e-02;

const A6: f64 = 6.66107313738753120669e-02;

const A7: f64 = -5.83357013379057348645e-02;

const A8: f64 = 4.97687799461593236017e-02;

const A9: f64 = -3.65315727442169155270e-02;

const A10: f64 = 1.62858201153657823623e-02;

const MINUS_ONE: f64 = -1.0;

const MINUS_THREE: f64 = -3.0;

const TINY: f64 = 1.0e-300;

const PI_O_4: f64 = 7.8539816339744827900E-01;

const PI_O_2: f64 = 1.5707963267948965580E+00;

const PI: f64 = 3.1415926535897931160E+00;

const PI_LO: f64 = 1.2246467991473531772E-16;

// 1 - atan(x) / x, by the odd and the even coefficients apart.
pub(crate) fn atan_series(x: f64) -> f64
    ensures { result ≡ series_of x }
{
    let z = x * x;
    let w = z * z;
    let s1 = z * (A0 + w * (A2 + w * (A4 + w * (A6 + w * (A8 + w * A10)))));
    let s2 = w * (A1 + w * (A3 + w * (A5 + w * (A7 + w * A9))));
    s1 + s2
}

// From 2^66 on: a right angle, or a NaN.
// Kept (1): the sign is the number that `by_signs` goes by.
pub(crate) fn atan_far(x: f64, sign: u64) -> f64
    ensures { result ≡ far_of x sign }
{
    if x.is_nan() {
        x + x
    } else if sign == 0 {
        ATANHI_3 + ATANLO_3
    } else {
        -ATANHI_3 - ATANLO_3
    }
}

// The arc tangent of the number whose arc tangent is hi + lo, and of what lies beyond it by x.
fn from_known(hi: f64, lo: f64, x: f64) -> f64
    ensures { result ≡ from_known hi lo x }
{
    hi - ((x * atan_series(x) - lo) - x)
}

// The arc tangent of a t from 7/16 on, of high word ix: from that of 1/2, 1, 3/2 or infinity.
pub(crate) fn atan_folded(t: f64, ix: u64) -> f64
    ensures { result ≡ folded_of t ix }
{
    if ix < 0x3fe6_0000 {
        from_known(ATANHI_0, ATANLO_0, (2.0 * t - 1.0) / (2.0 + t))
    } else if ix < 0x3ff3_0000 {
        from_known(ATANHI_1, ATANLO_1, (t - 1.0) / (t + 1.0))
    } else if ix < 0x4003_8000 {
        from_known(ATANHI_2, ATANLO_2, (t - 1.5) / (1.0 + 1.5 * t))
    } else {
        from_known(ATANHI_3, ATANLO_3, MINUS_ONE / t)
    }
}

// The C's switch on m, which is the sign of y with twice the sign of x.
// Kept (1): m and the two signs are numbers, as in the C, which takes them from the bits and puts m together by `|`.
fn by_signs(m: u64, a: f64, b: f64, c: f64, d: f64) -> f64
    ensures { result ≡ by_signs m a b c d }
{
    match m {
        0 => a,
        1 => b,
        2 => c,
        _ => d,
    }
}

// Where y is a zero.
fn on_axis(y: f64, m: u64) -> f64
    ensures { result ≡ on_axis y m }
{
    by_signs(m, y, y, PI + TINY, -PI - TINY)
}

// Where x is a zero, or y infinite: a right angle.
fn upright(y_sign: u64) -> f64
    ensures { result ≡ upright y_sign }
{
    if y_sign == 0 {
        PI_O_2 + TINY
    } else {
        -PI_O_2 - TINY
    }
}

// Where x is infinite.
fn far_along(iy: u64, m: u64) -> f64
    ensures { result ≡ far_along iy m }
{
    if iy == 0x7ff0_0000 {
        by_signs(
            m,
            PI_O_4 + TINY,
            -PI_O_4 - TINY,
            3.0 * PI_O_4 + TINY,
            MINUS_THREE * PI_O_4 - TINY,
        )
    } else {
        by_signs(m, 0.0, MINUS_ONE * 0.0, PI + TINY, -PI - TINY)
    }
}

// The arc tangent of |y / x|, of which a quotient above 2^60 needs no series, nor one below 2^-60 where x is negative.
fn quotient(y: f64, x: f64, x_sign: u64, iy: u64, ix: u64) -> f64
    requires { (iy < 2 ^ 32) × (ix < 2 ^ 32) }
    ensures { result ≡ quotient_of y x x_sign iy ix }
{
    if ix + 0x03d0_0000 <= iy {
        return PI_O_2 + 0.5 * PI_LO;
    }
    if x_sign == 1 && iy + 0x03c0_0000 < ix {
        return 0.0;
    }
    crate::atan(number::abs(y / x))
}

// The angle whose arc tangent of |y / x| is z, in the quarter of the plane that m names.
fn around(m: u64, z: f64) -> f64
    ensures { result ≡ around_of m z }
{
    by_signs(m, z, -z, PI - (z - PI_LO), (z - PI_LO) - PI)
}

// The angle of the point (x, y), neither of them a NaN.
pub(crate) fn angle(y: f64, x: f64) -> f64
    ensures { result ≡ angle_of y x }
{
    let y_sign = number::sign_bit(y);
    let m = y_sign | ((number::to_bits(x) >> 62) & 2);
    if number::magnitude_bits(y) == 0 {
        return on_axis(y, m);
    }
    if number::magnitude_bits(x) == 0 {
        return upright(y_sign);
    }
    let ix = number::high_word(x);
    let iy = number::high_word(y);
    if ix == 0x7ff0_0000 {
        return far_along(iy, m);
    }
    if iy == 0x7ff0_0000 {
        return upright(y_sign);
    }
    let z = quotient(y, x, number::sign_bit(x), iy, ix);
    around(m, z)
}
