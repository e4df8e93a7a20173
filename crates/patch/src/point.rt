ghost use Rattle.std.specs.Prelude.{◌≡◌};
ghost use Rattle.patch.specs.Located.{located_of};

use crate::patch::Patch;
use geometry::Point3D;
use refusal::{Refusal, asked};

// The point of a patch at (u, v): refusals 1 to 4 of the patch, then 6. The windows are not applied to it.
pub fn point(patch: Patch, u: f64, v: f64) -> Result<Point3D, Refusal>
    ensures { result ≡ located_of patch u v }
{
    patch.fitness()?;
    asked(number::is_finite(u), Refusal::Parameter)?;
    asked(number::is_finite(v), Refusal::Parameter)?;
    Ok(patch.surface.eval_point(u, v))
}
