// When a half has come round, and how long a stride may be.
ghost use Rattle.std.specs.Prelude.{◌≡◌};
ghost use Rattle.step.specs.Attempt.{chord_deviation};
ghost use Rattle.step.specs.Closing.{along_of, closes_of, first_stride, next_stride};

use crate::shorten::H_MAX;
use geometry::Point3D;
use geometry::tolerance::CHORD_DEVIATION;

// A chord of length h deviates from its curve by h * h * curvature / 8.
const SAGITTA: f64 = 8.0;

// How far the chord of a step may stray from the curve.
pub(crate) fn chord_deviation(confusion: f64) -> f64
    ensures { result ≡ chord_deviation confusion }
{
    CHORD_DEVIATION * confusion
}

// How far along the chord from p to q the start lies.
fn along(start: Point3D, p: Point3D, q: Point3D) -> f64
    ensures { result ≡ along_of start p q }
{
    let chord = q - p;
    (start - p).dot(chord) / number::max(chord.dot(chord), f64::MIN_POSITIVE)
}

// Whether the chord from p to q passes the start closely enough.
pub(crate) fn closes(confusion: f64, start: Point3D, p: Point3D, q: Point3D) -> bool
    ensures { result ≡ closes_of confusion start p q }
{
    let s = along(start, p, q);
    0.0 <= s
        && (s <= 1.0
            && (p + (q - p) * s).distance(start)
                <= 4.0 * chord_deviation(confusion) + 10.0 * confusion)
}

// The length that a half tries first.
pub fn first_stride(confusion: f64) -> f64
    ensures { result ≡ first_stride confusion }
{
    number::min(sqrt::sqrt(SAGITTA * chord_deviation(confusion)), H_MAX)
}

// The length to try after a stride of length h: twice that, at most 0.1, and short enough for the curvature. No root is taken where the
// curvature's bound, whose square is `square`, lies above the other two.
pub(crate) fn next_stride(confusion: f64, h: f64, curvature: f64) -> f64
    ensures { result ≡ next_stride confusion h curvature }
{
    let square = SAGITTA * chord_deviation(confusion) / number::max(curvature, f64::MIN_POSITIVE);
    let longest = number::min(2.0 * h, H_MAX);
    if sqrt::at_most(square, longest) {
        number::min(longest, sqrt::sqrt(square))
    } else {
        longest
    }
}
