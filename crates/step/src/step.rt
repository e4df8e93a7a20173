// One step of a half.
ghost use Rattle.std.specs.Prelude.{◌≡◌};
ghost use Rattle.step.specs.Step.{edge_step, came_round, inner_step, step_of};

use crate::attempt::{Stride, Walker};
use crate::closing::{closes, next_stride};
use crate::shorten::shorten;
use geometry::{Point3D, Tolerance};
use patch::{Parameters, Patch};

// What a half does next: it goes on from a new point with a stride's length to try; it closes, the last point being removed first or
// not; it ends on an edge point; or it ends without a further point.
#[derive(Clone, Copy)]
pub enum Stepped {
    Onward { next: Walker, length: f64 },
    Closed { removed: bool },
    Edge { y: Parameters, q: Point3D },
    Ended,
}

// An edge point is added only if it lies far enough from the last.
fn edge_step(confusion: f64, p: Point3D, y: Parameters, q: Point3D) -> Stepped
    ensures { result ≡ edge_step confusion p y q }
{
    if number::max(confusion, 1e-7) < q.distance(p) {
        Stepped::Edge { y, q }
    } else {
        Stepped::Ended
    }
}

// Whether the half, which holds `held` points, has come round: it is not asked before it holds 3.
fn came_round(confusion: f64, start: Point3D, held: usize, p: Point3D, q: Point3D) -> bool
    ensures { result ≡ came_round confusion start held p q }
{
    3 <= held && closes(confusion, start, p, q)
}

// An inner step closes the line on its start or goes on. The last point goes if it lies nearer the start than a tenth of the stride.
fn inner_step(
    confusion: f64,
    start: Point3D,
    held: usize,
    p: Point3D,
    next: Walker,
    h: f64,
) -> Stepped
    ensures { result ≡ inner_step confusion start held p next h }
{
    if came_round(confusion, start, held, p, next.p) {
        let removed = p.distance(start) < 0.1 * h;
        Stepped::Closed { removed }
    } else {
        let length = next_stride(confusion, h, next.curvature);
        Stepped::Onward { next, length }
    }
}

// One step from where the half stands: dir is 1 forward and -1 backward, `held` counts the half's points, h is the stride to try first.
pub fn step(
    a: Patch,
    b: Patch,
    tol: Tolerance,
    dir: f64,
    start: Point3D,
    held: usize,
    w: Walker,
    h: f64,
) -> Stepped
    ensures { result ≡ step_of a b tol dir start held w h }
{
    match shorten(a, b, tol, dir, w, h) {
        Some(Stride::Inner { next, length }) => {
            inner_step(tol.confusion, start, held, w.p, next, length)
        }
        Some(Stride::Edge { y, q }) => edge_step(tol.confusion, w.p, y, q),
        None => Stepped::Ended,
    }
}
