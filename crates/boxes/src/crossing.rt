ghost use Rattle.std.specs.Prelude.{◌≡◌, ◌*◌, ◌≤◌, length};
ghost use Rattle.groups.specs.Groups.{width};
ghost use Rattle.boxes.specs.Crossing.{sides_fit, box_fit, some_unfit, crossing_fitness, crossing_of};

use crate::boxtree::Aabb;
use crate::marching;
use geometry::{Point3D, Tolerance};
use groups::row::{point_from, rows};
use refusal::{Refusal, asked};

// No low side lies above its high side.
fn sides_fit(b: Aabb) -> bool
    ensures { result ≡ sides_fit b }
{
    !(b.high.x < b.low.x) && (!(b.high.y < b.low.y) && !(b.high.z < b.low.z))
}

// What refusal 17 lets through.
fn box_fit(b: Aabb) -> bool
    ensures { result ≡ box_fit b }
{
    b.low.is_fit() && (b.high.is_fit() && sides_fit(b))
}

// Whether refusal 18 stops one of the points.
// Kept (6): the count is the caller's claim, as in `marching::crosses`.
fn some_unfit(points: &[f64], count: usize) -> bool
    requires { width * count ≤ length points.now }
    ensures { result ≡ some_unfit points.now count }
{
    let rows = rows(&points[..groups::WIDTH * count]);
    !rows.iter().map(point_from).all(Point3D::is_fit)
}

// Refusals 5, 8, 12 (count only), 18 and 17, in this order.
// Kept (5, 6): the list, the caller's count and the box go one by one, as document 01 and C hand them over; 8 and 12 test the count here.
pub(crate) fn crossing_fitness(
    tol: Tolerance,
    points: &[f64],
    count: usize,
    b: Aabb,
) -> Result<(), Refusal>
    ensures { result ≡ crossing_fitness tol points.now count b }
{
    asked(tol.is_fit(), Refusal::Tolerance)?;
    asked(groups::holds(points, count), Refusal::Lent)?;
    asked(groups::count_fits(count), Refusal::Claim)?;
    asked(!some_unfit(points, count), Refusal::Coordinate)?;
    asked(box_fit(b), Refusal::BoxNumber)
}

// Whether the trace of `count` points passes through the box, grown by 8000 times confusion, or the refusal.
pub fn crossing(tol: Tolerance, points: &[f64], count: usize, b: Aabb) -> Result<bool, Refusal>
    ensures { result ≡ crossing_of tol points.now count b }
{
    crossing_fitness(tol, points, count, b)?;
    Ok(marching::crosses(points, count, b, tol.confusion))
}
