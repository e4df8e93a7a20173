ghost use Rattle.std.specs.Prelude.{◌≡◌};
ghost use Rattle.number.specs.Operators.{◌≤?◌};
ghost use Rattle.geometry.specs.Point.{point_of, distance_of, add_vector_of, difference_of, point_fit, point_of_numbers};

use crate::vector::Vector3D;
use std::ops::{Add, Sub};

// No chord of a trace is longer, the closing one left out.
pub const LONGEST_CHORD: f64 = 0.2;

#[derive(Clone, Copy)]
pub struct Point3D {
    pub x: f64,
    pub y: f64,
    pub z: f64,
}

impl Point3D {
    pub fn new(x: f64, y: f64, z: f64) -> Point3D
        ensures { result ≡ point_of x y z }
    {
        Point3D { x, y, z }
    }

    // The computed gap or chord of two points.
    pub fn distance(self, other: Point3D) -> f64
        ensures { result ≡ distance_of self other }
    {
        let dx = other.x - self.x;
        let dy = other.y - self.y;
        let dz = other.z - self.z;
        sqrt::sqrt(dx * dx + dy * dy + dz * dz)
    }

    // Whether the gap or chord is at most the bound: mostly without its root.
    pub fn within(self, other: Point3D, bound: f64) -> bool
        ensures { result ≡ (distance_of self other ≤? bound) }
    {
        (other - self).magnitude_at_most(bound)
    }

    // Every coordinate finite and at most 2^20 in magnitude.
    pub fn is_fit(self) -> bool
        ensures { result ≡ point_fit self }
    {
        number::number_fit(self.x) && (number::number_fit(self.y) && number::number_fit(self.z))
    }
}

// The coordinates in their order.
impl From<[f64; 3]> for Point3D {
    ghost from_gives = { λ numbers p. p ≡ point_of_numbers numbers };

    fn from([x, y, z]: [f64; 3]) -> Point3D {
        Point3D::new(x, y, z)
    }
}

// Point + vector.
impl Add<Vector3D> for Point3D {
    type Output = Point3D;

    ghost add_gives = { λ p v moved. moved ≡ add_vector_of p v };

    fn add(self, vector: Vector3D) -> Point3D {
        Point3D {
            x: self.x + vector.x,
            y: self.y + vector.y,
            z: self.z + vector.z,
        }
    }
}

// Point - point.
impl Sub for Point3D {
    type Output = Vector3D;

    ghost sub_gives = { λ p q difference. difference ≡ difference_of p q };

    fn sub(self, other: Point3D) -> Vector3D {
        Vector3D {
            x: self.x - other.x,
            y: self.y - other.y,
            z: self.z - other.z,
        }
    }
}
