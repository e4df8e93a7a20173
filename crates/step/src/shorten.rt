// The stride, shortened until it leads somewhere: the Rust's `while h >= tol.confusion`.
ghost use Rattle.std.specs.Prelude.{◌≡◌};
ghost use Rattle.step.specs.Shorten.{stride_of};

use crate::attempt::{Stride, Walker, attempt};
use geometry::Tolerance;
use patch::Patch;

// The longest stride.
pub const H_MAX: f64 = 0.1;

// So often halved, it is below every fit confusion.
const MOST_HALVINGS: usize = 37;

// The first of the strides h, h / 2, h / 4 .. that leads somewhere; none where they fall below confusion.
pub(crate) fn shorten(
    a: Patch,
    b: Patch,
    tol: Tolerance,
    dir: f64,
    w: Walker,
    h: f64,
) -> Option<Stride>
    ensures { result ≡ stride_of a b tol dir w h }
{
    let mut h = h;
    for _ in 0..MOST_HALVINGS {
        if h >= tol.confusion {
            if let Some(stride) = attempt(a, b, tol, dir, w, h) {
                return Some(stride);
            }
            h = h * 0.5;
        } else {
            return None;
        }
    }
    None
}
