// Both halves in the lent buffer: the start, the forward half behind it, the backward half behind that; then the points are reversed,
// so that the line reads from the backward half's end to the forward half's.
ghost use Rattle.std.specs.Prelude.{◌≡◌, ◌+◌, ◌*◌, ◌≤◌, length};
ghost use Rattle.loops.specs.Loop.{pick};
ghost use Rattle.groups.specs.Groups.{width};
ghost use Rattle.patch.specs.Located.{point_a};
ghost use Rattle.walk.specs.Lent.{joined_of, own_row};
ghost use Rattle.walk.specs.Line.{line_of};
ghost use Rattle.groups.specs.Traced.{outcome};
ghost use Rattle.groups.specs.declared.traced.Closing.TheVariants.{Open, Backward};
ghost use Rattle.walk.specs.Trace.{room, finished_of, settled};

use crate::half::{Start, half};
use crate::lent::{put, reverse, row_for};
use geometry::Tolerance;
use groups::{Closing, LEAST_POINTS, Traced, WIDTH};
use patch::Patch;
use refusal::Refusal;

// The start and `forward` points behind it, then `backward` points: those reversed come first.
fn join(points: &mut [f64], forward: usize, backward: usize)
    requires { width * (1 + forward + backward) ≤ length points.old }
    ensures { points.new ≡ joined_of forward backward points.old }
{
    let used = WIDTH * (1 + forward + backward);
    let from = WIDTH * backward;
    reverse(&mut points[..used]);
    reverse(&mut points[from..used]);
}

// A line of fewer than 4 points is refused and nothing of it is left; otherwise zeros follow it.
fn finish(points: &mut [f64], found: Traced) -> Result<Traced, Refusal>
    requires { width * found.count ≤ length points.old }
    ensures { outcome result points.new ≡ finished_of found.count found.start found.closing points.old }
{
    if found.count < LEAST_POINTS {
        points.fill(0.0);
        return Err(Refusal::TooShort);
    }
    points[WIDTH * found.count..].fill(0.0);
    Ok(found)
}

// The closing of a line that did not close forward, by whether its backward half closed.
fn backward_closing(closed: bool) -> Closing
    ensures { result ≡ pick closed Backward Open }
{
    if closed {
        Closing::Backward
    } else {
        Closing::Open
    }
}

// The line through the start.
// Kept (6): n is the step cap of each half; the slice has room for both.
pub(crate) fn line(
    points: &mut [f64],
    a: Patch,
    b: Patch,
    tol: Tolerance,
    start: Start,
    n: usize,
) -> Result<Traced, Refusal>
    requires own { start.p ≡ point_a a start.x }
    requires whole { length points.old ≡ room n }
    ensures { outcome result points.new ≡ settled (own_row a) n (line_of a b tol start.x start.t n) }
{
    put(&mut *points, 0, row_for(start.p, start.x));
    let forward = half(&mut points[WIDTH..], a, b, tol, 1.0, start, n);
    if forward.closed {
        let found = Traced {
            count: 1 + forward.count,
            start: 0,
            closing: Closing::Forward,
        };
        return finish(&mut *points, found);
    }
    let behind = WIDTH * (1 + forward.count);
    let backward = half(&mut points[behind..], a, b, tol, -1.0, start, n);
    join(&mut *points, forward.count, backward.count);
    let found = Traced {
        count: 1 + forward.count + backward.count,
        start: backward.count,
        closing: backward_closing(backward.closed),
    };
    finish(&mut *points, found)
}
