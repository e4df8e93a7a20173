//! Example 9 as a call, with the constants that the Rust has for it. What it answers stands in the table (`specs/Table.antt`).
#![tactic(auto)]

ghost use Rattle.std.specs.Prelude.{◌≡◌};
ghost use Rattle.groups.specs.Traced.{outcome};
ghost use Rattle.examples.specs.Table.{moved_frame, unit_frame, square_plane, nine_of};

use analytic::Surface;
use geometry::{Frame3D, Point3D, Tolerance, Vector3D};
use groups::Traced;
use patch::{Parameters, Patch, Window};
use refusal::Refusal;

// The frame with axes (1, 0, 0), (0, 1, 0), (0, 0, 1) whose origin is 0 moved.
fn moved_frame(by: Vector3D) -> Frame3D
    ensures { result ≡ moved_frame by }
{
    let origin = Point3D::new(0.0, 0.0, 0.0);
    Frame3D {
        origin: origin + by,
        x: Vector3D::new(1.0, 0.0, 0.0),
        y: Vector3D::new(0.0, 1.0, 0.0),
        z: Vector3D::new(0.0, 0.0, 1.0),
    }
}

// The unit frame.
fn unit_frame() -> Frame3D
    ensures { result ≡ unit_frame }
{
    moved_frame(Vector3D::ZERO)
}

// A plane with windows from -1 to 1 and no marks.
fn square_plane(frame: Frame3D) -> Patch
    ensures { result ≡ square_plane frame }
{
    let window = Window {
        low: -1.0,
        high: 1.0,
        turn: false,
    };
    Patch {
        surface: Surface::Plane(frame),
        u: window,
        v: window,
    }
}

// Example 9: the unit frame's plane and the same one moved, the default tolerance, cap 2, guess all 0. The table says what it answers for a
// move by nothing (10) and by (0, 0, 1) (21), and that 35 numbers lent are zero afterwards.
pub fn nine(by: Vector3D, lent: &mut [f64]) -> Result<Traced, Refusal>
    ensures { outcome result lent.new ≡ nine_of by lent.old }
{
    let a = square_plane(unit_frame());
    let b = square_plane(moved_frame(by));
    let guess = Parameters {
        u1: 0.0,
        v1: 0.0,
        u2: 0.0,
        v2: 0.0,
    };
    walk::trace::trace(a, b, Tolerance::DEFAULT, guess, 2, &mut *lent)
}
