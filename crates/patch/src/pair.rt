// Two surfaces and the tolerance: what every call on both tests first.
ghost use Rattle.std.specs.Prelude.{◌≡◌};
ghost use Rattle.patch.specs.Pair.{pair_fitness};

use crate::patch::Patch;
use geometry::Tolerance;
use refusal::{Refusal, asked};

// Refusals 1 to 4 of A, the same of B, then 5.
pub fn pair_fitness(a: Patch, b: Patch, tol: Tolerance) -> Result<(), Refusal>
    ensures { result ≡ pair_fitness a b tol }
{
    a.fitness()?;
    b.fitness()?;
    asked(tol.is_fit(), Refusal::Tolerance)
}
