//! Surfaces and patches with the answers of the Rust: 30 words, what is asked (0 a point, 1 both first derivatives, 2 the public point),
//! the kind, the marks, 18 numbers (frame, two sizes, two windows), u, v, the answer's word, and the numbers written (6 at most, zeros
//! behind).
ghost use Rattle.std.specs.Prelude.{◌≤◌};

use crate::compared::Compared;
use analytic::Kind;
use recorded::words::{RECORD, differ, load, word};

pub struct Surfaces;

// Kept (1): what is asked is a word of the record, and the other two go to the probe as they stand.
const PUBLIC_POINT: u64 = 2;

// Where the sizes begin, among a surface's 146 bytes, that the kind of this number has not.
fn unused(number: u64) -> usize
    ensures { (98 ≤ result) × (result ≤ 114) }
{
    match Kind::try_from(number) {
        Ok(Kind::Plane) => 98,
        Ok(Kind::Cylinder | Kind::Sphere) => 106,
        _ => WINDOWS,
    }
}

// Where the windows begin.
const WINDOWS: usize = 114;

// The surface's bytes as the job file has them: kind, marks and the numbers. A size that the kind has not is clear there, and not here.
fn surface(bytes: &[u8; RECORD]) -> [u8; 146] {
    let mut surface = [0u8; 146];
    let first = unused(word(bytes, 8));
    surface[0] = bytes[15];
    surface[1..first].copy_from_slice(&bytes[23..22 + first]);
    surface[WINDOWS..].copy_from_slice(&bytes[136..168]);
    surface
}

// The answer's word; what it writes goes to the output.
fn said(bytes: &[u8; RECORD], output: &mut [f64]) -> u64 {
    let what = word(bytes, 0);
    let u = number::from_bits(word(bytes, 168));
    let v = number::from_bits(word(bytes, 176));
    if what == PUBLIC_POINT {
        return capi::geomcore_point(&surface(bytes), u, v, output);
    }
    let mut numbers = [0.0; 14];
    load(&bytes[24..], &mut numbers);
    probe::surface::probe_surface(what, word(bytes, 8), &numbers, u, v, output)
}

impl Compared for Surfaces {
    const NAME: &'static str = "surfaces";

    fn size() -> usize {
        240
    }

    fn same(bytes: &[u8; RECORD]) -> bool {
        let mut output = [0.0; 6];
        said(bytes, &mut output) == word(bytes, 184) && !differ(&bytes[192..], &output)
    }
}
