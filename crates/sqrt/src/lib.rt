//! The square root of a binary64 number, correctly rounded.
//!
//! The bits are split into sign bit, exponent field and fraction field. Where the number is finite and above 0 it is
//! `m * 2 ^ g` with an `m` of 53 digits, up to a power of 4, and the 53 digits of the root are those of the root of
//! `a * 2 ^ 52`, where `a` is `m` or `2 * m`. A candidate for them comes from a few floating-point steps. Of its value nothing is proved:
//! whole numbers test exactly that it is the nearest one, and where the test fails the digits are found one by one.
#![tactic(auto)]

ghost use Rattle.std.specs.Prelude.{◌≡◌, ◌+◌, ◌*◌, ◌%◌, ◌^◌, ◌<◌, ◌≤◌, true};
ghost use Rattle.number.specs.Operators.{◌≤?◌};
ghost use Rattle.sqrt.specs.Sqrt.{round_root, sqrt_of, SqrtGives};
ghost use Rattle.sqrt.specs.Nearest.{Nearest, IsDigit, units_of};
ghost use Rattle.number.specs.Units.{units_in_one};

// 1.5 * 2 ^ 27 - 2 ^ -25: the last bits of a sum with it hold the other summand in units of 2 ^ -25, less 1.
const TO_25: f64 = 201326591.99999997;

// 1.5 + 2 ^ -25: the last bits of a sum with it hold the other summand in units of 2 ^ -52, and 2 ^ 27 more, so that it may be negative.
// Kept (2): the two round to different units, so each has its own value.
const TO_52: f64 = 1.5000000298023224;

// 2 ^ 52: the leading digit of a significand, above the fraction field, and the unit of the exponent field.
const LEADING: u64 = 0x10_0000_0000_0000;

// 2 ^ 27: a candidate's pieces are apart by so much.
const PIECE: u64 = 0x800_0000;

// The coefficients of c0 + c1 * f - c2 * f ^ 2 + c3 * f ^ 3.
#[derive(Clone, Copy)]
struct Cubic(f64, f64, f64, f64);

// A candidate for the digits of a root, high * 2 ^ 27 + low.
#[derive(Clone, Copy)]
struct Candidate {
    high: u64,
    low: u64,
    ghost high_in: { high < 2 ^ 27 },
    ghost low_in: { low < 2 ^ 28 },
}

// A significand of 53 digits, and what stands for its exponent: the root of m * 2 ^ (g + 52) is looked for.
#[derive(Clone, Copy)]
struct Significand {
    m: u64,
    g: u64,
    ghost leading: { 2 ^ 52 ≤ m },
    ghost digits: { m < 2 ^ 53 },
    ghost top: { g ≤ 3067 },
}

// A root's whole part, and what the number has more than its square.
#[derive(Clone, Copy)]
struct Rooted {
    root: u64,
    rest: u64,
    ghost whole: { rest ≤ 2 * root },
}

// The cubics near the root of an f between 1 + i / 32 and 1 + (i + 1) / 32, for an i from 0 to 31, as `tools/cubics_sqrt.py` writes them.
static CUBICS: [Cubic; 32] = [
    Cubic(0.31491610218, 0.93029812766, 0.30534427544, 0.06013004587),
    Cubic(0.31972520562, 0.91630570584, 0.29177311386, 0.05574235012),
    Cubic(0.32446301097, 0.90292629887, 0.27917832441, 0.05179014614),
    Cubic(0.32913259955, 0.89011641044, 0.26746431436, 0.04821939695),
    Cubic(0.33373683678, 0.87783674650, 0.25654719701, 0.04498404018),
    Cubic(0.33827839261, 0.86605170758, 0.24635308626, 0.04204463381),
    Cubic(0.34275976041, 0.85472895216, 0.23681667571, 0.03936725991),
    Cubic(0.34718327217, 0.84383902479, 0.22788005301, 0.03692263350),
    Cubic(0.35155111285, 0.83335503294, 0.21949170163, 0.03468537274),
    Cubic(0.35586533363, 0.82325236586, 0.21160565705, 0.03263339843),
    Cubic(0.36012786239, 0.81350845312, 0.20418079393, 0.03074743825),
    Cubic(0.36434051487, 0.80410254999, 0.19718021586, 0.02901061417),
    Cubic(0.36850500127, 0.79501555675, 0.19057073951, 0.02740809959),
    Cubic(0.37262293798, 0.78622984765, 0.18432244269, 0.02592682980),
    Cubic(0.37669585210, 0.77772913310, 0.17840828485, 0.02455526073),
    Cubic(0.38072518902, 0.76949833043, 0.17280377377, 0.02328316379),
    Cubic(0.38471231870, 0.76152345083, 0.16748667769, 0.02210145224),
    Cubic(0.38865854070, 0.75379150008, 0.16243677596, 0.02100203371),
    Cubic(0.39256508837, 0.74629039092, 0.15763564197, 0.01997768423),
    Cubic(0.39643313561, 0.73900885917, 0.15306644977, 0.01902193973),
    Cubic(0.40026379883, 0.73193639686, 0.14871380976, 0.01812900381),
    Cubic(0.40405814174, 0.72506318635, 0.14456362051, 0.01729366753),
    Cubic(0.40781717865, 0.71838004339, 0.14060293953, 0.01651124036),
    Cubic(0.41154187660, 0.71187836730, 0.13681986997, 0.01577749047),
    Cubic(0.41523316029, 0.70555009082, 0.13320345730, 0.01508859230),
    Cubic(0.41889191318, 0.69938764082, 0.12974360107, 0.01444108151),
    Cubic(0.42251898064, 0.69338389902, 0.12643097433, 0.01383181525),
    Cubic(0.42611517256, 0.68753216688, 0.12325695214, 0.01325793745),
    Cubic(0.42968126364, 0.68182613717, 0.12021354959, 0.01271684866),
    Cubic(0.43321799701, 0.67625986251, 0.11729336334, 0.01220617897),
    Cubic(0.43672608792, 0.67082772661, 0.11448951921, 0.01172376424),
    Cubic(0.44020621857, 0.66552443068, 0.11179563171, 0.01126762614),
];

impl Significand {
    // A finite number above 0 as m * 2 ^ (g + 52) / 2 ^ 1074 units: a subnormal number's fraction is shifted up.
    fn scaled(exponent: u64, fraction: u64) -> Self
        requires { (exponent < 2047) × (fraction < 2 ^ 52) × (0 < exponent + fraction) }
        ensures { result.m * 2 ^ (result.g + 52) ≡ units_of exponent fraction * units_in_one }
    {
        if exponent == 0 {
            let z = u64::leading_zeros(fraction) as u64 - 11;
            return Significand {
                m: fraction << z,
                g: 1022 - z,
            };
        }
        Significand {
            m: fraction + LEADING,
            g: exponent + 1021,
        }
    }

    // A candidate for the root of m * 2 ^ odd * 2 ^ 52, where odd is 1 for an odd g, by the root of v = m * 2 ^ odd / 2 ^ 52: a cubic's
    // value is near it, and is cut to 26 digits, s, whose square is exact. What is missing is (v - s * s) / (s + root). The sums with
    // `TO_25` and `TO_52` put the wanted digits at the end of the bits. None for a NaN, which none of them is; that is not proved.
    fn candidate(self) -> Option<Candidate> {
        let odd = self.g % 2;
        let bits = self.m + 0x3fe0_0000_0000_0000;
        let f = f64::from_bits(bits);
        let v = f64::from_bits(bits + (odd << 52));
        let c = CUBICS[(self.m >> 47) as usize - 32];
        let scale = if odd == 0 { 1.0 } else { 1.4142135623730951 };
        let near = (c.0 + c.1 * f - (f * f) * (c.2 - c.3 * f)) * scale;
        let cut = near + TO_25;
        let s = cut - TO_25;
        let rest = (v - s * s) / (s + near) + TO_52;
        if rest.is_nan() {
            return None;
        }
        Some(Candidate {
            high: f64::to_bits(cut) & 0x7ff_ffff,
            low: f64::to_bits(rest) & 0xfff_ffff,
        })
    }

    // The whole number nearest to the root of m * 2 ^ odd * 2 ^ 52: the candidate, or where it fails the test the digits one by one.
    fn nearest(self) -> u64
        ensures { Nearest (self.m * 2 ^ (self.g % 2) * 2 ^ 52) result }
    {
        let a = self.m << (self.g % 2);
        if let Some(c) = self.candidate() {
            if c.is_nearest(a) {
                return c.high * PIECE + c.low;
            }
        }
        by_digits(a)
    }

    // The number nearest to the root of m * 2 ^ (g + 52), in units.
    fn root(self) -> f64
        ensures { result ≡ round_root (self.m * 2 ^ (self.g + 52)) }
    {
        f64::from_bits((self.g / 2) * LEADING + self.nearest())
    }
}

impl Candidate {
    // Whether it is nearest to the root of a * 2 ^ 52. The difference of the squares is taken in units of 2 ^ 27, so that a candidate
    // within one unit of the lower limit may be refused, and none is passed that is not nearest. The upper limit is exact: roots of
    // numbers beside a power of 4, as the lengths of unit vectors are, lie just below it.
    fn is_nearest(self, a: u64) -> bool
        requires { a < 2 ^ 54 }
        ensures { result ≡ true → Nearest (a * 2 ^ 52) (self.high * 2 ^ 27 + self.low) }
    {
        let rest = a.wrapping_sub(4 * self.high * self.high);
        if 1 << 38 <= rest {
            return false;
        }
        let square = self.low * self.low;
        let used = 2 * self.high * self.low + square / PIECE + 1;
        let left = (rest * (PIECE / 4) + self.high).wrapping_sub(used);
        left < 2 * self.high + (self.low + square % PIECE) / PIECE
    }
}

impl Rooted {
    // The root of n * 4 + two, where this is that of n: one binary digit more.
    fn digit(self, two: u64) -> Self
        requires { (self.root < 2 ^ 53) × (two < 4) }
        ensures { IsDigit self.root self.rest two result.root result.rest }
    {
        let rest = self.rest * 4 + two;
        let twice = self.root * 4;
        if twice < rest {
            return Rooted {
                root: self.root * 2 + 1,
                rest: rest - twice - 1,
            };
        }
        Rooted {
            root: self.root * 2,
            rest,
        }
    }
}

// The whole number nearest to the root of a * 2 ^ 52, from its binary digits one by one. x holds the digits of the number that are left, at
// its upper end.
fn by_digits(a: u64) -> u64
    requires { (0 < a) × (a < 2 ^ 54) }
    ensures { Nearest (a * 2 ^ 52) result }
{
    let mut x = a << 10;
    let mut found = Rooted { root: 0, rest: 0 };
    for _ in 0..53usize {
        found = found.digit(x >> 62);
        x <<= 2;
    }
    let Rooted { root, rest } = found;
    if root < rest { root + 1 } else { root }
}

// The square root: of -0 it is -0, and of any other negative number a NaN.
// Kept (4): not std's `f64::sqrt`: a rule has the root split into its fields and rounded (docs/RULES.md), and here it is.
pub fn sqrt(x: f64) -> f64
    ensures { SqrtGives x result }
{
    if x.is_nan() {
        return x;
    }
    let bits = f64::to_bits(x);
    let sign = bits >> 63;
    let exponent = (bits >> 52) & 0x7ff;
    let fraction = bits & 0xf_ffff_ffff_ffff;
    if exponent + fraction == 0 {
        x
    } else if sign == 1 {
        f64::NAN
    } else if exponent == 2047 {
        x
    } else {
        Significand::scaled(exponent, fraction).root()
    }
}

// 2 ^ -100: the square of a number from there on loses nothing to underflow.
const LEAST: f64 = 7.888609052210118e-31;

// Whether the square root of x is at most c. Squares that are clearly apart tell it without the root.
pub fn at_most(x: f64, c: f64) -> bool
    ensures { result ≡ (sqrt_of x ≤? c) }
{
    if LEAST <= c {
        let square = c * c;
        if square + square < x {
            return false;
        }
        if 0.0 <= x && square <= 1.0 && x + x <= square {
            return true;
        }
    }
    sqrt(x) <= c
}
