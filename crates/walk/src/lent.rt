// The lent buffer: a point's numbers put down, points reversed in place.
ghost use Rattle.std.specs.Prelude.{◌≡◌, ◌+◌, ◌*◌, ◌/◌, ◌≤◌, length};
ghost use Rattle.groups.specs.Groups.{width};
ghost use Rattle.walk.specs.Lent.{placed, reversed_of, row_for};

use geometry::Point3D;
use groups::row::row_of;
use groups::{Row, WIDTH};
use patch::Parameters;

// A point's numbers, from index `at` on.
// Kept (4): for `copy_from_slice(&row.numbers())` (tried) the numbers are laid out in memory first: 17 instructions more a point, at each step.
// Kept (6): the place is cut from the buffer here, and not by each of six callers.
pub(crate) fn put(out: &mut [f64], at: usize, row: Row)
    requires { at + width ≤ length out.old }
    ensures { out.new ≡ placed out.old at row }
{
    let place = &mut out[at..at + WIDTH];
    place[0] = row.x;
    place[1] = row.y;
    place[2] = row.z;
    place[3] = row.u1;
    place[4] = row.v1;
    place[5] = row.u2;
    place[6] = row.v2;
}

// The numbers of a point of surface A and its parameters.
// Kept (4): a `From<(Point3D, Parameters)>` is no plainer: each caller would write a pair and the type that comes of it.
pub(crate) fn row_for(q: Point3D, x: Parameters) -> Row
    ensures { result ≡ row_for q x }
{
    Row {
        x: q.x,
        y: q.y,
        z: q.z,
        u1: x.u1,
        v1: x.v1,
        u2: x.u2,
        v2: x.v2,
    }
}

// The points of the slice, last first, in place.
// Kept (3): of `as_chunks_mut` and its rows' `reverse` (tried) std does not say what the slice holds afterwards.
pub(crate) fn reverse(points: &mut [f64])
    requires { width * (length points.old / width) ≡ length points.old }
    ensures { points.new ≡ reversed_of (length points.old / width) points.old }
{
    let k = points.len() / WIDTH;
    for i in 0..k / 2 {
        let j = k - 1 - i;
        let low = row_of(&*points, i);
        let high = row_of(&*points, j);
        put(&mut *points, WIDTH * i, high);
        put(&mut *points, WIDTH * j, low);
    }
}
