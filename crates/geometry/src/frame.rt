ghost use Rattle.std.specs.Prelude.{◌≡◌};
ghost use Rattle.geometry.specs.Frame.{point_at_of};

use crate::point::Point3D;
use crate::vector::Vector3D;

// An origin and three directions as given: no right angle is tested.
#[derive(Clone, Copy)]
pub struct Frame3D {
    pub origin: Point3D,
    pub x: Vector3D,
    pub y: Vector3D,
    pub z: Vector3D,
}

impl Frame3D {
    // origin + x * a + y * b + z * c, added from left to right.
    pub fn point_at(self, a: f64, b: f64, c: f64) -> Point3D
        ensures { result ≡ point_at_of self a b c }
    {
        self.origin + self.x * a + self.y * b + self.z * c
    }
}
