//! The five kinds alone, with no surface: what the numbers of files and of C stand for.
ghost use Rattle.std.specs.Prelude.{◌≡◌};
ghost use Rattle.analytic.specs.Kind.{Decodes, surface_as};

use crate::surface::Surface;
use geometry::Frame3D;

// In the order of their numbers, from 0.
#[derive(Clone, Copy, PartialEq, Eq)]
pub enum Kind {
    Plane,
    Cylinder,
    Cone,
    Sphere,
    Torus,
}

// A number that no kind has.
#[derive(Clone, Copy, PartialEq, Eq)]
pub struct UnknownKind;

impl TryFrom<u64> for Kind {
    type Error = UnknownKind;

    ghost try_from_gives = { Decodes };

    fn try_from(number: u64) -> Result<Kind, UnknownKind> {
        match number {
            0 => Ok(Kind::Plane),
            1 => Ok(Kind::Cylinder),
            2 => Ok(Kind::Cone),
            3 => Ok(Kind::Sphere),
            4 => Ok(Kind::Torus),
            _ => Err(UnknownKind),
        }
    }
}

impl Kind {
    // The surface of this kind; used sizes come first.
    pub fn surface(self, frame: Frame3D, first: f64, second: f64) -> Surface
        ensures { result ≡ surface_as self frame first second }
    {
        match self {
            Kind::Plane => Surface::Plane(frame),
            Kind::Cylinder => Surface::Cylinder(frame, first),
            Kind::Cone => Surface::Cone(frame, first, second),
            Kind::Sphere => Surface::Sphere(frame, first),
            Kind::Torus => Surface::Torus(frame, first, second),
        }
    }
}
