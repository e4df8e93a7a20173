ghost use Rattle.std.specs.Prelude.{◌≡◌};
ghost use Rattle.boxes.specs.Bounds.{apart_on, boxes_apart};
ghost use Rattle.boxes.specs.Explain.{first_apart};

use geometry::Point3D;

// A box with sides along the axes: the Rust's six numbers as two corners.
#[derive(Clone, Copy)]
pub struct Aabb {
    pub low: Point3D,
    pub high: Point3D,
}

// On one axis: whether the stretch from low to high and the one from `from` to `to` are apart.
fn apart_on(low: f64, high: f64, from: f64, to: f64) -> bool
    ensures { result ≡ apart_on low high from to }
{
    to < low || high < from
}

// Whether the boxes are apart: the Rust's `boxes_apart` with a gap of 0. Boxes that touch are not, nor is one with a NaN on that axis.
pub fn boxes_apart(a: Aabb, b: Aabb) -> bool
    ensures { result ≡ boxes_apart a b }
{
    apart_on(a.low.x, a.high.x, b.low.x, b.high.x)
        || (apart_on(a.low.y, a.high.y, b.low.y, b.high.y)
            || apart_on(a.low.z, a.high.z, b.low.z, b.high.z))
}

// The first axis on which the boxes are apart: 0, 1, 2 for x, y, z.
pub(crate) fn first_apart(a: Aabb, b: Aabb) -> Option<usize>
    ensures { result ≡ first_apart a b }
{
    if apart_on(a.low.x, a.high.x, b.low.x, b.high.x) {
        return Some(0);
    }
    if apart_on(a.low.y, a.high.y, b.low.y, b.high.y) {
        return Some(1);
    }
    if apart_on(a.low.z, a.high.z, b.low.z, b.high.z) {
        return Some(2);
    }
    None
}
