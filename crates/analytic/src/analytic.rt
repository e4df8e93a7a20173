// Points (`*_d0`) and both first derivatives (`*_derivatives`) of the kinds, in the Rust's order of evaluation.
// The Rust works out one derivative a call; here one set of sines and cosines serves both.
ghost use Rattle.std.specs.Prelude.{◌≡◌};
ghost use Rattle.analytic.specs.declared.surface.Surface.TheVariants.{Plane, Cylinder, Cone, Sphere, Torus};
ghost use Rattle.analytic.specs.Surface.{eval_point, combination_of, eval_d1};

use geometry::{Frame3D, Point3D, Vector3D};

// The derivatives by u and by v.
#[derive(Clone, Copy)]
pub struct Derivatives {
    pub u: Vector3D,
    pub v: Vector3D,
}

// a * p + b * q.
fn combination(a: f64, p: Vector3D, b: f64, q: Vector3D) -> Vector3D
    ensures { result ≡ combination_of a p b q }
{
    a * p + b * q
}

pub(crate) fn plane_d0(frame: Frame3D, u: f64, v: f64) -> Point3D
    ensures { result ≡ eval_point (Plane frame) u v }
{
    frame.point_at(u, v, 0.0)
}

pub(crate) fn cylinder_d0(frame: Frame3D, r: f64, u: f64, v: f64) -> Point3D
    ensures { result ≡ eval_point (Cylinder frame r) u v }
{
    let mut cu = 0.0;
    let su = fdlibm::sin_cos(u, &mut cu);
    let a1 = r * cu;
    let a2 = r * su;
    frame.point_at(a1, a2, v)
}

// v is not read, as in the Rust.
pub(crate) fn cylinder_derivatives(frame: Frame3D, r: f64, u: f64, v: f64) -> Derivatives
    ensures { result ≡ eval_d1 (Cylinder frame r) u v }
{
    let mut cu = 0.0;
    let su = fdlibm::sin_cos(u, &mut cu);
    let a1 = r * cu;
    let a2 = r * su;
    let z = frame.z;
    Derivatives {
        u: combination(-a2, frame.x, a1, frame.y),
        v: z,
    }
}

pub(crate) fn cone_d0(frame: Frame3D, ref_r: f64, semi_angle: f64, u: f64, v: f64) -> Point3D
    ensures { result ≡ eval_point (Cone frame ref_r semi_angle) u v }
{
    let mut ca = 0.0;
    let sa = fdlibm::sin_cos(semi_angle, &mut ca);
    let mut cu = 0.0;
    let su = fdlibm::sin_cos(u, &mut cu);
    let r = ref_r + v * sa;
    frame.point_at(r * cu, r * su, v * ca)
}

pub(crate) fn cone_derivatives(
    frame: Frame3D,
    ref_r: f64,
    semi_angle: f64,
    u: f64,
    v: f64,
) -> Derivatives
    ensures { result ≡ eval_d1 (Cone frame ref_r semi_angle) u v }
{
    let mut ca = 0.0;
    let sa = fdlibm::sin_cos(semi_angle, &mut ca);
    let mut cu = 0.0;
    let su = fdlibm::sin_cos(u, &mut cu);
    let r = ref_r + v * sa;
    Derivatives {
        u: combination(-r * su, frame.x, r * cu, frame.y),
        v: combination(sa, combination(cu, frame.x, su, frame.y), ca, frame.z),
    }
}

pub(crate) fn sphere_d0(frame: Frame3D, r: f64, u: f64, v: f64) -> Point3D
    ensures { result ≡ eval_point (Sphere frame r) u v }
{
    let mut cv = 0.0;
    let sv = fdlibm::sin_cos(v, &mut cv);
    let mut cu = 0.0;
    let su = fdlibm::sin_cos(u, &mut cu);
    let rcv = r * cv;
    frame.point_at(rcv * cu, rcv * su, r * sv)
}

pub(crate) fn sphere_derivatives(frame: Frame3D, r: f64, u: f64, v: f64) -> Derivatives
    ensures { result ≡ eval_d1 (Sphere frame r) u v }
{
    let mut cv = 0.0;
    let sv = fdlibm::sin_cos(v, &mut cv);
    let mut cu = 0.0;
    let su = fdlibm::sin_cos(u, &mut cu);
    let rcv = r * cv;
    Derivatives {
        u: rcv * combination(-su, frame.x, cu, frame.y),
        v: combination(-r * sv, combination(cu, frame.x, su, frame.y), rcv, frame.z),
    }
}

pub(crate) fn torus_d0(frame: Frame3D, maj: f64, min: f64, u: f64, v: f64) -> Point3D
    ensures { result ≡ eval_point (Torus frame maj min) u v }
{
    let mut cv = 0.0;
    let sv = fdlibm::sin_cos(v, &mut cv);
    let mut cu = 0.0;
    let su = fdlibm::sin_cos(u, &mut cu);
    let r = maj + min * cv;
    frame.point_at(r * cu, r * su, min * sv)
}

pub(crate) fn torus_derivatives(frame: Frame3D, maj: f64, min: f64, u: f64, v: f64) -> Derivatives
    ensures { result ≡ eval_d1 (Torus frame maj min) u v }
{
    let mut cv = 0.0;
    let sv = fdlibm::sin_cos(v, &mut cv);
    let mut cu = 0.0;
    let su = fdlibm::sin_cos(u, &mut cu);
    let r = maj + min * cv;
    Derivatives {
        u: r * combination(-su, frame.x, cu, frame.y),
        v: combination(
            -min * sv,
            combination(cu, frame.x, su, frame.y),
            min * cv,
            frame.z,
        ),
    }
}
