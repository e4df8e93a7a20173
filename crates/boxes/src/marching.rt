ghost use Rattle.std.specs.Prelude.{◌≡◌, ◌*◌, ◌/◌, ◌≤◌, ◌<◌, length};
ghost use Rattle.groups.specs.Groups.{width};
ghost use Rattle.boxes.specs.Segment.{clip_of, segment_meets_box};
ghost use Rattle.boxes.specs.Crosses.{grown_of, first_segment, some_segment, run_crosses, run_from, some_run, crosses_of};

use crate::boxtree::Aabb;
use crate::{boxtree, pieces};
use geometry::Point3D;
use geometry::tolerance::CHORD_DEVIATION;
use groups::WIDTH;
use groups::row::{point_from, rows};

// Segments of a trace per box of a run.
pub(crate) const RUN: usize = 16;

// The fractions of a segment that are inside the slabs looked at so far.
#[derive(Clone, Copy)]
pub struct Span {
    pub lo: f64,
    pub hi: f64,
}

// The whole segment.
const WHOLE: Span = Span { lo: 0.0, hi: 1.0 };

// The span cut to the slab between two sides, on one axis; none where it misses the slab.
fn clip(from: f64, d: f64, low: f64, high: f64, span: Span) -> Option<Span>
    ensures { result ≡ clip_of from d low high span }
{
    if d == 0.0 {
        if from < low || high < from {
            return None;
        }
        return Some(span);
    }
    let t0 = (low - from) / d;
    let t1 = (high - from) / d;
    let lo = number::max(span.lo, number::min(t0, t1));
    let hi = number::min(span.hi, number::max(t0, t1));
    if hi < lo {
        return None;
    }
    Some(Span { lo, hi })
}

// Whether the segment from p to q meets the box, by the rounded fractions at which it passes each slab.
pub(crate) fn segment_meets_box(p: Point3D, q: Point3D, b: Aabb) -> bool
    ensures { result ≡ segment_meets_box p q b }
{
    let Some(x) = clip(p.x, q.x - p.x, b.low.x, b.high.x, WHOLE) else {
        return false;
    };
    let Some(y) = clip(p.y, q.y - p.y, b.low.y, b.high.y, x) else {
        return false;
    };
    clip(p.z, q.z - p.z, b.low.z, b.high.z, y).is_some()
}

// The first segment of the points that meets the box.
pub(crate) fn first_segment(points: &[f64], b: Aabb) -> Option<usize>
    ensures { result ≡ first_segment points.now (length points.now / width) b }
{
    let rows = rows(points);
    let starts = rows.iter().map(point_from);
    let ends = rows.iter().skip(1).map(point_from);
    starts
        .zip(ends)
        .position(|(p, q)| segment_meets_box(p, q, b))
}

// Whether some segment of the points meets the box.
fn some_segment(points: &[f64], b: Aabb) -> bool
    ensures { result ≡ some_segment points.now (length points.now / width) b }
{
    first_segment(points, b).is_some()
}

// One run, from its first point on: no segment is looked at where its box is apart.
fn run_crosses(points: &[f64], b: Aabb) -> bool
    requires { width ≤ length points.now }
    ensures { result ≡ run_crosses points.now (length points.now / width) b }
{
    let bounds = pieces::bounding_box(points);
    if boxtree::boxes_apart(bounds, b) {
        return false;
    }
    some_segment(points, b)
}

// A run, handed on as the part of the trace from its first point: 17 points of it, or what is left.
pub(crate) fn run_from(points: &[f64], first: usize) -> &[f64]
    requires { width * first ≤ length points.now }
    ensures { result.now ≡ run_from points.now first }
{
    let part = &points[WIDTH * first..];
    &part[..part.len().min(WIDTH * (RUN + 1))]
}

// Whether some run crosses the box.
// Kept (3): a run ends where the next one begins, so the runs are no chunks of the list; with `any` over their numbers (tried) a crossing
// takes 5% longer.
fn some_run(points: &[f64], b: Aabb) -> bool
    ensures { result ≡ some_run points.now (length points.now / width) b }
{
    let segments = (points.len() / WIDTH).saturating_sub(1);
    for first in (0..segments).step_by(RUN) {
        if run_crosses(run_from(points, first), b) {
            return true;
        }
    }
    false
}

// The box grown by the distance that a trace's chords may stray from the curve.
pub(crate) fn grown(b: Aabb, confusion: f64) -> Aabb
    ensures { result ≡ grown_of b confusion }
{
    let gap = 8.0 * CHORD_DEVIATION * confusion;
    Aabb {
        low: Point3D::new(b.low.x - gap, b.low.y - gap, b.low.z - gap),
        high: Point3D::new(b.high.x + gap, b.high.y + gap, b.high.z + gap),
    }
}

// Whether the trace passes through the grown box.
// Kept (6): the count is the caller's claim, to which the list is cut here; inside it goes with no list.
pub(crate) fn crosses(points: &[f64], count: usize, b: Aabb, confusion: f64) -> bool
    requires { (0 < count) × (width * count ≤ length points.now) }
    ensures { result ≡ crosses_of points.now count b confusion }
{
    let wide = grown(b, confusion);
    let points = &points[..WIDTH * count];
    let bounds = pieces::bounding_box(points);
    if boxtree::boxes_apart(bounds, wide) {
        return false;
    }
    some_run(points, wide)
}
