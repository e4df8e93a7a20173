// A correction of Newton's method: the residual at the parameters, and the change of the parameters that a linear system gives.
ghost use Rattle.std.specs.Prelude.{◌≡◌, ℕ, ◌<◌, slice_index};
ghost use Rattle.meeting.specs.Correction.{offset_of, residual_of, columns_of, rows_of, dot4_of, normal_matrix, free_correction, plane_correction};
ghost use Rattle.meeting.specs.Correction.{free_at, NamesOthers, placed_of, pin_correction, correction_of, shifted_of};

use crate::parameters::{parameter, with_parameter};
use geometry::{Point3D, Vector3D};
use patch::{Parameters, Patch};
use solve::{SOLVER_TOL, Singular, solve_square};
use std::array;

// What is solved beside S1(u1, v1) = S2(u2, v2): nothing (the minimum-norm correction), a plane through a point with a normal, or a
// parameter held at its value.
// Kept (1): the first case is a solve of its own, not the want of one.
#[derive(Clone, Copy)]
pub enum Target {
    Free,
    Plane { origin: Point3D, normal: Vector3D },
    Pin(usize),
}

// The parameters, the difference of the two points there, the offset from the plane, and the sum of the squares.
#[derive(Clone, Copy)]
pub struct Residual {
    pub x: Parameters,
    pub f: Vector3D,
    pub r: f64,
    pub merit: f64,
}

// How far p lies off the plane; 0 where there is none.
fn offset(target: Target, p: Point3D) -> f64
    ensures { result ≡ offset_of target p }
{
    match target {
        Target::Plane { origin, normal } => (p - origin).dot(normal),
        Target::Free | Target::Pin(_) => 0.0,
    }
}

// The residual at the parameters.
pub(crate) fn residual_at(a: Patch, b: Patch, target: Target, x: Parameters) -> Residual
    ensures { result ≡ residual_of a b target x }
{
    let pa = a.surface.eval_point(x.u1, x.v1);
    let pb = b.surface.eval_point(x.u2, x.v2);
    let f = pa - pb;
    let r = offset(target, pa);
    let merit = f.dot(f) + r * r;
    Residual { x, f, r, merit }
}

// The derivatives of the difference of the two points by the four parameters.
fn columns(a: Patch, b: Patch, x: Parameters) -> [Vector3D; 4]
    ensures { result ≡ columns_of a b x }
{
    let da = a.surface.eval_d1(x.u1, x.v1);
    let db = b.surface.eval_d1(x.u2, x.v2);
    [da.u, da.v, -db.u, -db.v]
}

// The rows of J: the coordinates of its columns.
fn rows(c: [Vector3D; 4]) -> [[f64; 4]; 3]
    ensures { result ≡ rows_of c }
{
    let [p, q, s, t] = c;
    [
        [p.x, q.x, s.x, t.x],
        [p.y, q.y, s.y, t.y],
        [p.z, q.z, s.z, t.z],
    ]
}

// The Rust's `sum` of four products: it starts from -0.
fn dot4(p: [f64; 4], q: [f64; 4]) -> f64
    ensures { result ≡ dot4_of p q }
{
    -0.0 + p[0] * q[0] + p[1] * q[1] + p[2] * q[2] + p[3] * q[3]
}

// J J^T, of the rows of J.
fn normal_matrix(c: [Vector3D; 4]) -> [[f64; 3]; 3]
    ensures { result ≡ normal_matrix c }
{
    let [x, y, z] = rows(c);
    let xy = dot4(x, y);
    let xz = dot4(x, z);
    let yz = dot4(y, z);
    [
        [dot4(x, x), xy, xz],
        [xy, dot4(y, y), yz],
        [xz, yz, dot4(z, z)],
    ]
}

// The minimum-norm correction J^T y with J J^T y = -f.
fn free_correction(c: [Vector3D; 4], f: Vector3D) -> Result<Parameters, Singular>
    ensures { result ≡ free_correction c f }
{
    let [x, y, z] = solve_square(normal_matrix(c), [-f.x, -f.y, -f.z], SOLVER_TOL)?;
    let y = Vector3D::new(x, y, z);
    Ok(Parameters {
        u1: c[0].dot(y),
        v1: c[1].dot(y),
        u2: c[2].dot(y),
        v2: c[3].dot(y),
    })
}

// The correction that also meets the plane.
fn plane_correction(
    c: [Vector3D; 4],
    normal: Vector3D,
    f: Vector3D,
    r: f64,
) -> Result<Parameters, Singular>
    ensures { result ≡ plane_correction c normal f r }
{
    let [x, y, z] = rows(c);
    let m = [x, y, z, [c[0].dot(normal), c[1].dot(normal), 0.0, 0.0]];
    let [u1, v1, u2, v2] = solve_square(m, [-f.x, -f.y, -f.z, -r], SOLVER_TOL)?;
    Ok(Parameters { u1, v1, u2, v2 })
}

// The free parameters, in rising order: the i-th is i below the pin and i + 1 from the pin on.
// Kept (1): the formula counts from the pin's number, and `land` takes any.
fn free(pin: usize) -> [usize; 3]
    ensures each { (i : ℕ) → i < 3 → slice_index result i ≡ free_at pin i }
    ensures names { NamesOthers pin (slice_index result) }
{
    array::from_fn(
        |i|
            requires { i < 3 }
            ensures { result ≡ free_at pin i }
        { if i < pin { i } else { i + 1 } },
    )
}

// The change of the three free parameters, in their places.
fn placed(pin: usize, d: [f64; 3]) -> Parameters
    ensures { result ≡ placed_of pin d }
{
    let still = Parameters {
        u1: 0.0,
        v1: 0.0,
        u2: 0.0,
        v2: 0.0,
    };
    let [i, j, k] = free(pin);
    let first = with_parameter(still, i, d[0]);
    let second = with_parameter(first, j, d[1]);
    with_parameter(second, k, d[2])
}

// The correction of the three free parameters. The column is that of the i-th free one, and stays so.
fn pin_correction(c: [Vector3D; 4], pin: usize, f: Vector3D) -> Result<Parameters, Singular>
    ensures { result ≡ pin_correction c pin f }
{
    let [i, j, k] = free(pin);
    let [p, q, s] = [c[i], c[j], c[k]];
    let m = [[p.x, q.x, s.x], [p.y, q.y, s.y], [p.z, q.z, s.z]];
    let d = solve_square(m, [-f.x, -f.y, -f.z], SOLVER_TOL)?;
    Ok(placed(pin, d))
}

// The change of the parameters that the target asks for.
pub(crate) fn newton_correction(
    a: Patch,
    b: Patch,
    target: Target,
    s: Residual,
) -> Result<Parameters, Singular>
    ensures { result ≡ correction_of a b target s }
{
    let c = columns(a, b, s.x);
    match target {
        Target::Free => free_correction(c, s.f),
        Target::Plane { normal, .. } => plane_correction(c, normal, s.f, s.r),
        Target::Pin(pin) => pin_correction(c, pin, s.f),
    }
}

// x + scale * d, a pinned parameter left as it is.
pub(crate) fn shifted(target: Target, x: Parameters, d: Parameters, scale: f64) -> Parameters
    ensures { result ≡ shifted_of target x d scale }
{
    let y = Parameters {
        u1: x.u1 + scale * d.u1,
        v1: x.v1 + scale * d.v1,
        u2: x.u2 + scale * d.u2,
        v2: x.v2 + scale * d.v2,
    };
    match target {
        Target::Free | Target::Plane { .. } => y,
        Target::Pin(pin) => with_parameter(y, pin, parameter(x, pin)),
    }
}
