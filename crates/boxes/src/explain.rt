ghost use Rattle.std.specs.Prelude.{◌≡◌, ◌*◌, ◌/◌, ◌≤◌, ◌<◌, length};
ghost use Rattle.groups.specs.Groups.{width};
ghost use Rattle.boxes.specs.Crosses.{grown_of};
ghost use Rattle.boxes.specs.Explain.{unmet_reason, runs_reason, trace_reason, explain_of, stretch_of};

use crate::boxtree::{Aabb, boxes_apart, first_apart};
use crate::crossing::crossing_fitness;
use crate::marching::{RUN, first_segment, grown, run_from};
use crate::pieces::bounding_box;
use geometry::Tolerance;
use groups::WIDTH;
use refusal::Refusal;

// Why a trace crosses a box, grown by 8000 times confusion, or why it does not: the first of these that holds.
#[derive(Clone, Copy)]
pub enum Reason {
    // It does: this segment is the first that counts, from 0.
    Segment(usize),
    // The whole trace's box is apart from the grown box, on this axis first: 0, 1, 2 for x, y, z.
    WholeApart(usize),
    // The boxes of all runs are apart from it.
    RunsApart,
    // So many segments, 1 at least, lie in runs that are not apart; none met the box.
    NoneMet(usize),
}

// Where no segment met the box: what is said of so many in runs that are not apart.
fn unmet_reason(near: usize) -> Reason
    ensures { result ≡ unmet_reason near }
{
    if near == 0 {
        return Reason::RunsApart;
    }
    Reason::NoneMet(near)
}

// What the runs say, one after the other: the first segment that meets the box, or how many lie in runs that are not apart.
// Kept (3): as `marching::some_run`.
fn runs_reason(points: &[f64], b: Aabb) -> Reason
    ensures { result ≡ runs_reason points.now (length points.now / width) b }
{
    let segments = (points.len() / WIDTH).saturating_sub(1);
    let mut near = 0;
    for first in (0..segments).step_by(RUN) {
        let run = run_from(points, first);
        if !boxes_apart(bounding_box(run), b) {
            if let Some(k) = first_segment(run, b) {
                return Reason::Segment(first + k);
            }
            near += run.len() / WIDTH - 1;
        }
    }
    unmet_reason(near)
}

// Why the trace crosses the grown box, or why not.
// Kept (6): the count is the caller's claim, as in `marching::crosses`.
fn trace_reason(points: &[f64], count: usize, grown: Aabb) -> Reason
    requires { (0 < count) × (width * count ≤ length points.now) }
    ensures { result ≡ trace_reason points.now count grown }
{
    let points = &points[..WIDTH * count];
    match first_apart(bounding_box(points), grown) {
        Some(axis) => Reason::WholeApart(axis),
        None => runs_reason(points, grown),
    }
}

// Why the trace of `count` points crosses the box, or why not, or the refusal, which is the crossing's.
pub fn explain(tol: Tolerance, points: &[f64], count: usize, b: Aabb) -> Result<Reason, Refusal>
    ensures { result ≡ explain_of tol points.now count b }
{
    crossing_fitness(tol, points, count, b)?;
    Ok(trace_reason(points, count, grown(b, tol.confusion)))
}

// The stretch of the trace that crosses the box, the two points of the first segment that counts; empty where there is none, or a refusal.
pub fn stretch(tol: Tolerance, points: &[f64], count: usize, b: Aabb) -> &[f64]
    ensures { result.now ≡ stretch_of tol points.now count b }
{
    match explain(tol, points, count, b) {
        Ok(Reason::Segment(i)) => &points[WIDTH * i..WIDTH * (i + 2)],
        _ => &points[..0],
    }
}
