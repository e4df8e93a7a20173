//! What the probes read and write.
//!
//! The input of a step holds 54 numbers. Each of two patches is 21: the kind (below 1 plane, below 2 cylinder, below 3 cone, below 4 sphere, else
//! torus), the frame's origin, x, y and z direction, two sizes (used ones first), then low, high and mark (above 0) of u and of v.
//! Confusion, angular and four parameters follow, then what a function asks beside them.
ghost use Rattle.std.specs.Prelude.{◌≡◌, ◌+◌, ◌≤◌, length, Float};
ghost use Rattle.analytic.specs.Kind.{surface_as};
ghost use Rattle.geometry.specs.declared.frame.Frame3D.{Frame3D};
ghost use Rattle.probe.specs.Call.{frame_from, surface_from, window_from, patch_from, parameters_from, call_from, put_parameters};

use crate::numbers;
use analytic::Kind;
use geometry::{Frame3D, Point3D, Tolerance, Vector3D};
use patch::{Parameters, Patch, Window};

// What every function asks.
#[derive(Clone, Copy)]
pub struct Call {
    pub a: Patch,
    pub b: Patch,
    pub x: Parameters,
    pub tol: Tolerance,
}

// Kept (5): std splits a part off as an array by an `Option` of it each time, and no part is missing here.
pub fn frame(input: &[f64], at: usize) -> Frame3D
    requires { at + 12 ≤ length input.now }
    ensures { result ≡ frame_from input.now at }
{
    let origin = Point3D::from(numbers::<3>(input, at));
    let x = Vector3D::from(numbers::<3>(input, at + 3));
    let y = Vector3D::from(numbers::<3>(input, at + 6));
    let z = Vector3D::from(numbers::<3>(input, at + 9));
    Frame3D { origin, x, y, z }
}

// The kind that a number stands for: each stands for one.
// Kept (1): a `match` would want a guard for each bound, and a `TryFrom` has none to refuse.
fn kind(number: f64) -> Kind
    ensures { (f : Frame3D) (a b : Float) → surface_as result f a b ≡ surface_from number f a b }
{
    if number < 1.0 {
        return Kind::Plane;
    }
    if number < 2.0 {
        return Kind::Cylinder;
    }
    if number < 3.0 {
        return Kind::Cone;
    }
    if number < 4.0 {
        return Kind::Sphere;
    }
    Kind::Torus
}

fn window(input: &[f64], at: usize) -> Window
    requires { at + 3 ≤ length input.now }
    ensures { result ≡ window_from input.now at }
{
    let [low, high, mark] = numbers::<3>(input, at);
    let turn = 0.0 < mark;
    Window { low, high, turn }
}

fn patch_at(input: &[f64], at: usize) -> Patch
    requires { at + 21 ≤ length input.now }
    ensures { result ≡ patch_from input.now at }
{
    let f = frame(input, at + 1);
    let surface = kind(input[at]).surface(f, input[at + 13], input[at + 14]);
    let u = window(input, at + 15);
    let v = window(input, at + 18);
    Patch { surface, u, v }
}

pub fn parameters(input: &[f64], at: usize) -> Parameters
    requires { at + 4 ≤ length input.now }
    ensures { result ≡ parameters_from input.now at }
{
    let [u1, v1, u2, v2] = numbers::<4>(input, at);
    Parameters { u1, v1, u2, v2 }
}

pub fn read(input: &[f64; 54]) -> Call
    ensures { result ≡ call_from input.now }
{
    let a = patch_at(input, 0);
    let b = patch_at(input, 21);
    let tol = Tolerance {
        confusion: input[42],
        angular: input[43],
        parametric: 0.0,
    };
    let x = parameters(input, 44);
    Call { a, b, x, tol }
}

pub fn put_parameters(output: &mut [f64; 4], x: Parameters)
    ensures { output.new ≡ put_parameters output.old x }
{
    *output = [x.u1, x.v1, x.u2, x.v2];
}
