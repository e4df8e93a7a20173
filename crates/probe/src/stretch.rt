//! The stretch of a trace that crosses a box, for comparisons with outside programs: the call lends it, and C is handed a copy.
ghost use Rattle.std.specs.Prelude.{◌≡◌};
ghost use Rattle.probe.specs.Probe.{probed};
ghost use Rattle.probe.specs.Stretch.{put_stretch, probe_stretch};

use crate::numbers;
use boxes::Aabb;
use geometry::{Point3D, Tolerance};

// How many numbers the stretch has, and they stand at the front; 0 where there is no room for them, and the output is as it was.
fn put_stretch(stretch: &[f64], out: &mut [f64]) -> u64
    ensures { probed result out.new ≡ put_stretch stretch.now out.old }
{
    let n = stretch.len();
    if out.len() < n {
        return 0;
    }
    out[..n].copy_from_slice(stretch);
    n as u64
}

// The stretch of a trace of `count` points that crosses the box whose corners are given, low x, y, z, then high: 0, or 14 for its two
// points. Fewer than six corners and an output too short are answered 0, and the output is as it was.
pub fn probe_stretch(
    confusion: f64,
    angular: f64,
    buffer: &[f64],
    count: u64,
    corners: &[f64],
    out: &mut [f64],
) -> u64
    ensures { probed result out.new ≡ probe_stretch confusion angular buffer.now count corners.now out.old }
{
    if corners.len() < 6 {
        return 0;
    }
    let tol = Tolerance {
        confusion,
        angular,
        parametric: 0.0,
    };
    let low = Point3D::from(numbers::<3>(corners, 0));
    let high = Point3D::from(numbers::<3>(corners, 3));
    let stretch = boxes::explain::stretch(tol, buffer, count as usize, Aabb { low, high });
    put_stretch(stretch, out)
}
