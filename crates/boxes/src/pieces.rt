ghost use Rattle.std.specs.Prelude.{◌≡◌, ◌/◌, ◌≤◌, length};
ghost use Rattle.groups.specs.Groups.{width};
ghost use Rattle.boxes.specs.Bounds.{point_box, cover_of, bounds_of};

use crate::boxtree::Aabb;
use geometry::Point3D;
use groups::row::{point_from, rows};

// The box that is one point.
fn point_box(p: Point3D) -> Aabb
    ensures { result ≡ point_box p }
{
    Aabb { low: p, high: p }
}

// The box, widened where it does not hold the point.
fn cover(b: Aabb, p: Point3D) -> Aabb
    ensures { result ≡ cover_of b p }
{
    let low = b.low;
    let high = b.high;
    Aabb {
        low: Point3D::new(
            number::min(low.x, p.x),
            number::min(low.y, p.y),
            number::min(low.z, p.z),
        ),
        high: Point3D::new(
            number::max(high.x, p.x),
            number::max(high.y, p.y),
            number::max(high.z, p.z),
        ),
    }
}

// The box around the points of a trace or of a part of one.
pub(crate) fn bounding_box(points: &[f64]) -> Aabb
    requires { width ≤ length points.now }
    ensures { result ≡ bounds_of points.now (length points.now / width) }
{
    let rows = rows(points);
    let first = point_box(point_from(&rows[0]));
    rows[1..].iter().map(point_from).fold(first, cover)
}
