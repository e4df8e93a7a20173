ghost use Rattle.std.specs.Prelude.{◌≡◌, ◌/◌, length};
ghost use Rattle.std.specs.Simd.{first_chunks};
ghost use Rattle.groups.specs.Groups.{width};
ghost use Rattle.groups.specs.Row.{numbers_of, point_in, row_from, row_of};

use crate::WIDTH;
use geometry::Point3D;

// The numbers of one point: a point of surface A, then its parameters on A and on B.
#[derive(Clone, Copy)]
pub struct Row {
    pub x: f64,
    pub y: f64,
    pub z: f64,
    pub u1: f64,
    pub v1: f64,
    pub u2: f64,
    pub v2: f64,
}

impl Row {
    pub const ZERO: Row = Row {
        x: 0.0,
        y: 0.0,
        z: 0.0,
        u1: 0.0,
        v1: 0.0,
        u2: 0.0,
        v2: 0.0,
    };

    // The point itself.
    // Kept (4): `row.point()` is plainer than a conversion, which has to be told its type.
    pub fn point(self) -> Point3D
        ensures { result ≡ point_in self }
    {
        Point3D {
            x: self.x,
            y: self.y,
            z: self.z,
        }
    }

    // The numbers in their order.
    // Kept (4): `row.numbers()` says what it gives, `<[f64; WIDTH]>::from(row)` only of what type.
    pub fn numbers(self) -> [f64; WIDTH]
        ensures { result ≡ numbers_of self }
    {
        [self.x, self.y, self.z, self.u1, self.v1, self.u2, self.v2]
    }
}

// The numbers in their order.
impl From<[f64; WIDTH]> for Row {
    ghost from_gives = { λ numbers row. row ≡ row_from numbers 0 };

    fn from([x, y, z, u1, v1, u2, v2]: [f64; WIDTH]) -> Row {
        Row {
            x,
            y,
            z,
            u1,
            v1,
            u2,
            v2,
        }
    }
}

// The coordinates come first.
pub fn point_from(numbers: &[f64; WIDTH]) -> Point3D
    ensures { result ≡ point_in (row_from numbers.now 0) }
{
    let [x, y, z, ..] = *numbers;
    Point3D { x, y, z }
}

// The points of a list, each with its numbers: as many as it has whole groups.
pub fn rows(points: &[f64]) -> &[[f64; WIDTH]]
    ensures { result.now ≡ first_chunks width (length points.now / width) points.now }
{
    let (rows, _) = points.as_chunks::<WIDTH>();
    rows
}

// The numbers of point i of the list; zeros where the list has no such point.
pub fn row_of(points: &[f64], i: usize) -> Row
    ensures { result ≡ row_of points.now i }
{
    match rows(points).get(i) {
        Some(numbers) => Row::from(*numbers),
        None => Row::ZERO,
    }
}
