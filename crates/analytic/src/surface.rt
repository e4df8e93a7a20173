ghost use Rattle.std.specs.Prelude.{◌≡◌};
ghost use Rattle.analytic.specs.Surface.{eval_point, eval_d1};

use crate::analytic::Derivatives;
use geometry::{Frame3D, Point3D};

// One of five kinds, each carrying its frame and its sizes.
#[derive(Clone, Copy)]
pub enum Surface {
    Plane(Frame3D),
    // frame, radius
    Cylinder(Frame3D, f64),
    // frame, reference radius, semi-angle
    Cone(Frame3D, f64, f64),
    // frame, radius
    Sphere(Frame3D, f64),
    // frame, major radius, minor radius
    Torus(Frame3D, f64, f64),
}

impl Surface {
    // The point at (u, v).
    pub fn eval_point(self, u: f64, v: f64) -> Point3D
        ensures { result ≡ eval_point self u v }
    {
        match self {
            Surface::Plane(frame) => crate::analytic::plane_d0(frame, u, v),
            Surface::Cylinder(frame, r) => crate::analytic::cylinder_d0(frame, r, u, v),
            Surface::Cone(frame, r, a) => crate::analytic::cone_d0(frame, r, a, u, v),
            Surface::Sphere(frame, r) => crate::analytic::sphere_d0(frame, r, u, v),
            Surface::Torus(frame, maj, min) => crate::analytic::torus_d0(frame, maj, min, u, v),
        }
    }

    // Both first derivatives at (u, v).
    pub fn eval_d1(self, u: f64, v: f64) -> Derivatives
        ensures { result ≡ eval_d1 self u v }
    {
        match self {
            Surface::Plane(frame) => {
                let u = frame.x;
                let v = frame.y;
                Derivatives { u, v }
            }
            Surface::Cylinder(frame, r) => crate::analytic::cylinder_derivatives(frame, r, u, v),
            Surface::Cone(frame, r, a) => crate::analytic::cone_derivatives(frame, r, a, u, v),
            Surface::Sphere(frame, r) => crate::analytic::sphere_derivatives(frame, r, u, v),
            Surface::Torus(frame, maj, min) => crate::analytic::torus_derivatives(
                frame, maj, min, u, v,
            ),
        }
    }
}
