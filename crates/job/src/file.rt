ghost use Rattle.std.specs.Prelude.{◌≡◌};
ghost use Rattle.job.specs.Layout.{frame_place, guess_place};
ghost use Rattle.analytic.specs.Kind.{number_of};
ghost use Rattle.job.specs.Marks.{mark_number};
ghost use Rattle.job.specs.File.{frame_at, patch_at, unused_clear, surface_at, surface_file, guess_at, job_at, job_of};

use crate::layout::{self, JOB_BYTES, SURFACE_BYTES};
use crate::marks::Marks;
use analytic::Kind;
use geometry::{Frame3D, Point3D, Tolerance, Vector3D};
use patch::{Parameters, Patch, Window};
use refusal::{Refusal, asked};

// What a job file asks for: the line where A and B meet. The parametric tolerance isn't read.
#[derive(Clone, Copy)]
pub struct Job {
    pub a: Patch,
    pub b: Patch,
    pub tol: Tolerance,
    pub guess: Parameters,
    pub cap: usize,
}

fn frame(bytes: &[u8; SURFACE_BYTES]) -> Frame3D
    ensures { result ≡ frame_at bytes.now frame_place }
{
    let origin = Point3D::from(wire::numbers::<3>(bytes, layout::FRAME));
    let x = Vector3D::from(wire::numbers::<3>(bytes, layout::FRAME + 24));
    let y = Vector3D::from(wire::numbers::<3>(bytes, layout::FRAME + 48));
    let z = Vector3D::from(wire::numbers::<3>(bytes, layout::FRAME + 72));
    Frame3D { origin, x, y, z }
}

// The surface with its windows and marks, its kind and marks being known.
fn patch_at(bytes: &[u8; SURFACE_BYTES], kind: Kind, marks: Marks) -> Patch
    ensures { result ≡ patch_at bytes.now 0 (number_of kind) (mark_number marks) }
{
    let frame = frame(bytes);
    let first = wire::number(bytes, layout::FIRST_SIZE);
    let second = wire::number(bytes, layout::SECOND_SIZE);
    let surface = kind.surface(frame, first, second);
    let [low, high] = wire::numbers::<2>(bytes, layout::U_WINDOW);
    let turn = marks.u;
    let u = Window { low, high, turn };
    let [low, high] = wire::numbers::<2>(bytes, layout::V_WINDOW);
    let turn = marks.v;
    let v = Window { low, high, turn };
    Patch { surface, u, v }
}

// Whether no unused size has any bit set: the second of a cylinder or sphere, both of a plane.
fn unused_clear(kind: Kind, first: u64, second: u64) -> bool
    ensures { result ≡ unused_clear (number_of kind) first second }
{
    match kind {
        Kind::Plane => first == 0 && second == 0,
        Kind::Cylinder | Kind::Sphere => second == 0,
        Kind::Cone | Kind::Torus => true,
    }
}

// The surface of 146 bytes, or 19.
fn surface_at(bytes: &[u8; SURFACE_BYTES]) -> Result<Patch, Refusal>
    ensures { result ≡ surface_at bytes.now 0 }
{
    let Ok(kind) = Kind::try_from(u64::from(bytes[0])) else {
        return Err(Refusal::JobFile);
    };
    let marks = Marks::try_from(u64::from(bytes[layout::MARKS]))?;
    let first = wire::uint::<8>(bytes, layout::FIRST_SIZE);
    let second = wire::uint::<8>(bytes, layout::SECOND_SIZE);
    asked(unused_clear(kind, first, second), Refusal::JobFile)?;
    Ok(patch_at(bytes, kind, marks))
}

// A surface read from its 146 bytes, or 19. Bytes behind them are not read.
pub fn read_surface(bytes: &[u8]) -> Result<Patch, Refusal>
    ensures { result ≡ surface_file bytes.now }
{
    let Some(bytes) = bytes.first_chunk::<SURFACE_BYTES>() else {
        return Err(Refusal::JobFile);
    };
    surface_at(bytes)
}

fn guess_at(bytes: &[u8; JOB_BYTES]) -> Parameters
    ensures { result ≡ guess_at bytes.now guess_place }
{
    let [u1, v1, u2, v2] = wire::numbers::<4>(bytes, layout::GUESS);
    Parameters { u1, v1, u2, v2 }
}

// The job of two surfaces that are read already.
fn job_at(bytes: &[u8; JOB_BYTES], a: Patch, b: Patch) -> Job
    ensures { result ≡ job_at bytes.now a b }
{
    let confusion = wire::number(bytes, layout::CONFUSION);
    let angular = wire::number(bytes, layout::ANGULAR);
    let guess = guess_at(bytes);
    let cap = wire::uint::<2>(bytes, layout::CAP) as usize;
    let tol = Tolerance {
        confusion,
        angular,
        parametric: 0.0,
    };
    Job {
        a,
        b,
        tol,
        guess,
        cap,
    }
}

// The job of a file, or 19.
pub fn read(bytes: &[u8]) -> Result<Job, Refusal>
    ensures { result ≡ job_of bytes.now }
{
    let Some(bytes) = bytes.as_array::<JOB_BYTES>() else {
        return Err(Refusal::JobFile);
    };
    asked(
        wire::uint::<4>(bytes, 0) == layout::FOLLOWING,
        Refusal::JobFile,
    )?;
    asked(bytes[layout::VERSION] == 1, Refusal::JobFile)?;
    let a = read_surface(&bytes[layout::SURFACE_A..])?;
    let b = read_surface(&bytes[layout::SURFACE_B..])?;
    Ok(job_at(bytes, a, b))
}
