// One attempt at a stride of a given length: the body of the Rust's `while h >= tol.confusion`.
ghost use Rattle.std.specs.Prelude.{◌≡◌};
ghost use Rattle.step.specs.Attempt.{kept_of, landing_kept, turn_of, near_curve, smooth_of, accepted_of, onward_of, inner_of, landed_of, attempt_of};

use crate::closing::chord_deviation;
use geometry::point::LONGEST_CHORD;
use geometry::{Point3D, Tolerance, Vector3D};
use marching::leaving::leaving;
use marching::predict::predict;
use meeting::Met;
use meeting::newton::{land, meet_in_plane};
use patch::{Parameters, Patch};
use tangent::tangent;

// How far a step may turn freely, and how much it may turn beside the last one's curvature.
const FREE_TURN: f64 = 0.05;

const CURVATURE_GROWTH: f64 = 4.0;

// Where a half stands: the parameters and A's point of the last point kept, the direction in which it goes on, and the curvature of the
// last step (0 before the first).
// Kept (5): the surfaces, the tolerance, dir and the stride go beside it: a struct that holds the surfaces is slower (tried: `Start` of walk).
// Kept (1): dir is the Rust's 1.0 or -1.0, by which a direction is multiplied.
#[derive(Clone, Copy)]
pub struct Walker {
    pub x: Parameters,
    pub p: Point3D,
    pub t: Vector3D,
    pub curvature: f64,
}

// Where a stride leads: to a point within the windows, where the half stands next, with the stride's length; or to one on a window's edge.
#[derive(Clone, Copy)]
pub enum Stride {
    Inner { next: Walker, length: f64 },
    Edge { y: Parameters, q: Point3D },
}

// Whether the chord is at most twice the stride and at most 0.2.
fn kept(chord: f64, h: f64) -> bool
    ensures { result ≡ kept_of chord h }
{
    chord <= 2.0 * h && chord <= LONGEST_CHORD
}

// Whether a landing does not go back, and its chord is short enough.
fn landing_kept(w: Walker, h: f64, q: Point3D) -> bool
    ensures { result ≡ landing_kept w h q }
{
    0.0 <= (q - w.p).dot(w.t) && kept(q.distance(w.p), h)
}

// A point on the window's edge that the stride would overstep.
fn landed(
    a: Patch,
    b: Patch,
    tol: Tolerance,
    w: Walker,
    h: f64,
    guess: Parameters,
    pin: usize,
    bound: f64,
) -> Option<Stride>
    ensures { result ≡ landed_of a b tol w h guess pin bound }
{
    let Met::At(y) = land(a, b, guess, pin, bound, tol) else {
        return None;
    };
    let q = a.surface.eval_point(y.u1, y.v1);
    if landing_kept(w, h, q) {
        Some(Stride::Edge { y, q })
    } else {
        None
    }
}

// The angle between two directions.
fn turn(t: Vector3D, ty: Vector3D) -> f64
    ensures { result ≡ turn_of t ty }
{
    arctangent::atan2(t.cross(ty).magnitude(), t.dot(ty))
}

// Whether the step stays near the curve: its chord times its turn is at most 32 chord deviations.
fn near_curve(confusion: f64, chord: f64, turned: f64) -> bool
    ensures { result ≡ near_curve confusion chord turned }
{
    chord * turned <= 32.0 * chord_deviation(confusion)
}

// Whether the step stays on this branch: it turns by at most 0.05, or 4 times the last curvature times the chord.
fn smooth(curvature: f64, chord: f64, turned: f64) -> bool
    ensures { result ≡ smooth_of curvature chord turned }
{
    turned <= number::max(FREE_TURN, CURVATURE_GROWTH * curvature * chord)
}

// Whether a step is taken: the direction turns by less than a right angle, the chord is kept, the turn is smooth.
fn accepted(confusion: f64, w: Walker, h: f64, ty: Vector3D, chord: f64, turned: f64) -> bool
    ensures { result ≡ accepted_of confusion w h ty chord turned }
{
    0.0 < ty.dot(w.t)
        && (kept(chord, h)
            && (near_curve(confusion, chord, turned) && smooth(w.curvature, chord, turned)))
}

// The stride to q with the direction ty, if it is accepted.
fn onward(
    confusion: f64,
    w: Walker,
    h: f64,
    y: Parameters,
    q: Point3D,
    ty: Vector3D,
) -> Option<Stride>
    ensures { result ≡ onward_of confusion w h y q ty }
{
    let chord = q.distance(w.p);
    let turned = turn(w.t, ty);
    if accepted(confusion, w, h, ty, chord, turned) {
        let next = Walker {
            x: y,
            p: q,
            t: ty,
            curvature: turned / number::max(chord, f64::MIN_POSITIVE),
        };
        Some(Stride::Inner { next, length: h })
    } else {
        None
    }
}

// A point of both surfaces in the plane normal to the direction at the stride's end; dir is 1 forward and -1 backward.
fn inner(
    a: Patch,
    b: Patch,
    tol: Tolerance,
    dir: f64,
    w: Walker,
    h: f64,
    guess: Parameters,
) -> Option<Stride>
    ensures { result ≡ inner_of a b tol dir w h guess }
{
    let Met::At(y) = meet_in_plane(a, b, guess, w.p + w.t * h, w.t, tol) else {
        return None;
    };
    let d = tangent(a, b, y, tol)?;
    let q = a.surface.eval_point(y.u1, y.v1);
    onward(tol.confusion, w, h, y, q, d * dir)
}

// What the stride of length h leads to.
pub(crate) fn attempt(
    a: Patch,
    b: Patch,
    tol: Tolerance,
    dir: f64,
    w: Walker,
    h: f64,
) -> Option<Stride>
    ensures { result ≡ attempt_of a b tol dir w h }
{
    let guess = predict(a, b, w.x, w.t * h);
    match leaving(a, b, w.x, guess) {
        None => inner(a, b, tol, dir, w, h, guess),
        Some(exit) => landed(a, b, tol, w, h, guess, exit.index, exit.bound),
    }
}
