// The call: refusals, the seed, its tangent, the line.
ghost use Rattle.std.specs.Prelude.{◌≡◌, length};
ghost use Rattle.groups.specs.Traced.{outcome};
ghost use Rattle.walk.specs.Trace.{guess_finite, cap_fits, call_fitness, room, unwalked_of, walk_of, trace_of};

use crate::half::Start;
use crate::line::line;
use geometry::Tolerance;
use groups::{Traced, WIDTH};
use meeting::Met;
use meeting::newton::meet;
use patch::{Parameters, Patch, pair_fitness};
use refusal::{Refusal, asked};
use tangent::tangent;

// The least and the greatest step cap.
const LEAST_STEPS: usize = 2;

const MOST_STEPS: usize = 2000;

// What refusal 6 lets through.
fn guess_finite(x: Parameters) -> bool
    ensures { result ≡ guess_finite x }
{
    number::is_finite(x.u1)
        && (number::is_finite(x.v1) && (number::is_finite(x.u2) && number::is_finite(x.v2)))
}

// What refusal 7 lets through.
fn cap_fits(cap: usize) -> bool
    ensures { result ≡ cap_fits cap }
{
    LEAST_STEPS <= cap && cap <= MOST_STEPS
}

// Refusals 1 to 4 of A, the same of B, then 5 to 8.
fn call_fitness(
    a: Patch,
    b: Patch,
    tol: Tolerance,
    guess: Parameters,
    cap: usize,
    buffer: &[f64],
) -> Result<(), Refusal>
    ensures { result ≡ call_fitness a b tol guess cap buffer.now }
{
    pair_fitness(a, b, tol)?;
    asked(guess_finite(guess), Refusal::Parameter)?;
    asked(cap_fits(cap), Refusal::StepCap)?;
    asked(groups::holds(buffer, 2 * cap + 1), Refusal::Lent)
}

// What is answered where no walk begins: the meeting's refusal. A meeting alone is one point and no line.
// Kept (1): a `match` on the meeting would drop the arm that cannot come, but document 01 has "let Met::At(seed) = meet(..) else return
// refusal" at this place.
fn unwalked(met: Met) -> Result<Traced, Refusal>
    ensures { result ≡ unwalked_of met }
{
    match met {
        Met::At(_) => Err(Refusal::TooShort),
        Met::Refused(refusal) => Err(refusal),
    }
}

// The walk from a guess: 9 or 21 where it leads to no meeting, 10 where the meeting has no direction; zeros are left with each.
// Kept (6): n is the step cap, and the slice's room follows from it.
fn walk_from(
    points: &mut [f64],
    a: Patch,
    b: Patch,
    tol: Tolerance,
    guess: Parameters,
    n: usize,
) -> Result<Traced, Refusal>
    requires { length points.old ≡ room n }
    ensures { outcome result points.new ≡ walk_of a b tol guess n }
{
    let met = meet(a, b, guess, tol);
    let Met::At(seed) = met else {
        points.fill(0.0);
        return unwalked(met);
    };
    let Some(t) = tangent(a, b, seed, tol) else {
        points.fill(0.0);
        return Err(Refusal::NoDirection);
    };
    let p = a.surface.eval_point(seed.u1, seed.v1);
    line(&mut *points, a, b, tol, Start { x: seed, p, t }, n)
}

// The line where A and B meet, through the meeting that the guess leads to, in the lent buffer: seven numbers a point, then zeros, in its
// first 7 (2 cap + 1) numbers; the numbers behind those stay. Refusals 1 to 8 touch nothing.
pub fn trace(
    a: Patch,
    b: Patch,
    tol: Tolerance,
    guess: Parameters,
    cap: usize,
    buffer: &mut [f64],
) -> Result<Traced, Refusal>
    ensures { outcome result buffer.new ≡ trace_of a b tol guess cap buffer.old }
{
    call_fitness(a, b, tol, guess, cap, &*buffer)?;
    let room = WIDTH * (2 * cap + 1);
    walk_from(&mut buffer[..room], a, b, tol, guess, cap)
}
