//! Points and derivatives of surfaces for comparisons with outside programs.
//!
//! The numbers: origin, x, y and z direction, two sizes (used ones first). Kinds are the job file's.
ghost use Rattle.std.specs.Prelude.{◌≡◌};
ghost use Rattle.probe.specs.Probe.{probed};
ghost use Rattle.probe.specs.Surface.{probe_point, probe_derivatives, probe_surface};

use crate::call::frame;
use analytic::{Kind, Surface};

// 1 and the point's coordinates, or 0 for an output too short.
fn probe_point(s: Surface, u: f64, v: f64, output: &mut [f64]) -> u64
    ensures { probed result output.new ≡ probe_point s u v output.old }
{
    let Some(front) = output.first_chunk_mut::<3>() else {
        return 0;
    };
    let p = s.eval_point(u, v);
    *front = [p.x, p.y, p.z];
    1
}

// 1 and the coordinates of the derivative by u, then of that by v, or 0 for an output too short.
fn probe_derivatives(s: Surface, u: f64, v: f64, output: &mut [f64]) -> u64
    ensures { probed result output.new ≡ probe_derivatives s u v output.old }
{
    let Some(front) = output.first_chunk_mut::<6>() else {
        return 0;
    };
    let d = s.eval_d1(u, v);
    *front = [d.u.x, d.u.y, d.u.z, d.v.x, d.v.y, d.v.z];
    1
}

// What is asked: 0 the point, 1 both first derivatives. Anything else, a kind above 4 and a slice too short are answered 0, and the output
// is as it was.
// Kept (1): the numbers come from C as they are.
pub fn probe_surface(
    what: u64,
    kind: u64,
    numbers: &[f64],
    u: f64,
    v: f64,
    output: &mut [f64],
) -> u64
    ensures { probed result output.new ≡ probe_surface what kind numbers.now u v output.old }
{
    let Ok(kind) = Kind::try_from(kind) else {
        return 0;
    };
    if numbers.len() < 14 {
        return 0;
    }
    let s = kind.surface(frame(numbers, 0), numbers[12], numbers[13]);
    match what {
        0 => probe_point(s, u, v, output),
        1 => probe_derivatives(s, u, v, output),
        _ => 0,
    }
}
