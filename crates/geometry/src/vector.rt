//! Vectors by value, after the Rust's vector.rs. Every operation rounds once, in the Rust's order of evaluation.
ghost use Rattle.std.specs.Prelude.{◌≡◌};
ghost use Rattle.number.specs.Operators.{◌≤?◌};
ghost use Rattle.geometry.specs.Vector.{vector_of, dot_of, cross_of, magnitude_of, square_magnitude_of, add_of, neg_of, scale_of, times_of, vector_of_numbers};

use std::ops::{Add, Mul, Neg};

#[derive(Clone, Copy)]
pub struct Vector3D {
    pub x: f64,
    pub y: f64,
    pub z: f64,
}

impl Vector3D {
    pub const ZERO: Vector3D = Vector3D {
        x: 0.0,
        y: 0.0,
        z: 0.0,
    };

    pub fn new(x: f64, y: f64, z: f64) -> Vector3D
        ensures { result ≡ vector_of x y z }
    {
        Vector3D { x, y, z }
    }

    pub fn dot(self, other: Vector3D) -> f64
        ensures { result ≡ dot_of self other }
    {
        self.x * other.x + self.y * other.y + self.z * other.z
    }

    pub fn cross(self, other: Vector3D) -> Vector3D
        ensures { result ≡ cross_of self other }
    {
        Vector3D {
            x: self.y * other.z - self.z * other.y,
            y: self.z * other.x - self.x * other.z,
            z: self.x * other.y - self.y * other.x,
        }
    }

    fn square_magnitude(self) -> f64
        ensures { result ≡ square_magnitude_of self }
    {
        self.x * self.x + self.y * self.y + self.z * self.z
    }

    pub fn magnitude(self) -> f64
        ensures { result ≡ magnitude_of self }
    {
        sqrt::sqrt(self.square_magnitude())
    }

    // Whether the magnitude is at most the bound: mostly without its root.
    pub fn magnitude_at_most(self, bound: f64) -> bool
        ensures { result ≡ (magnitude_of self ≤? bound) }
    {
        sqrt::at_most(self.square_magnitude(), bound)
    }
}

// The coordinates in their order.
impl From<[f64; 3]> for Vector3D {
    ghost from_gives = { λ numbers v. v ≡ vector_of_numbers numbers };

    fn from([x, y, z]: [f64; 3]) -> Vector3D {
        Vector3D::new(x, y, z)
    }
}

impl Add for Vector3D {
    type Output = Vector3D;

    ghost add_gives = { λ a b sum. sum ≡ add_of a b };

    fn add(self, other: Vector3D) -> Vector3D {
        Vector3D {
            x: self.x + other.x,
            y: self.y + other.y,
            z: self.z + other.z,
        }
    }
}

impl Neg for Vector3D {
    type Output = Vector3D;

    ghost neg_gives = { λ a opposite. opposite ≡ neg_of a };

    fn neg(self) -> Vector3D {
        Vector3D {
            x: -self.x,
            y: -self.y,
            z: -self.z,
        }
    }
}

impl Mul<f64> for Vector3D {
    type Output = Vector3D;

    ghost mul_gives = { λ a scalar product. product ≡ scale_of a scalar };

    fn mul(self, scalar: f64) -> Vector3D {
        Vector3D {
            x: self.x * scalar,
            y: self.y * scalar,
            z: self.z * scalar,
        }
    }
}

impl Mul<Vector3D> for f64 {
    type Output = Vector3D;

    ghost mul_gives = { λ scalar a product. product ≡ times_of scalar a };

    fn mul(self, vector: Vector3D) -> Vector3D {
        vector * self
    }
}
