// One half of the walk.
ghost use Rattle.std.specs.Prelude.{◌≡◌, ◌*◌, ◌-◌, ◌≤◌, length, false};
ghost use Rattle.loops.specs.Loop.{pick};
ghost use Rattle.groups.specs.Groups.{width};
ghost use Rattle.patch.specs.Located.{point_a};
ghost use Rattle.walk.specs.Lent.{own_row};
ghost use Rattle.walk.specs.Line.{first_walker, half_of, Written};

use crate::lent::{put, row_for};
use geometry::{Point3D, Tolerance, Vector3D};
use groups::WIDTH;
use patch::{Parameters, Patch};
use step::step::step;
use step::{Stepped, Walker, first_stride};

// Where both halves of a line begin: the meeting's parameters x, its point p of A and the tangent t there.
// Kept (5): the surfaces, the tolerance and n go beside it. With them in the struct (tried) the surfaces are copied once more and read back
// in other pieces, and a walk of two steps takes 7% longer.
#[derive(Clone, Copy)]
pub(crate) struct Start {
    pub x: Parameters,
    pub p: Point3D,
    pub t: Vector3D,
}

impl Start {
    // Where a half begins: in the tangent's direction or against it.
    fn walker(self, dir: f64) -> Walker
        ensures { result ≡ first_walker self.x self.p self.t dir }
    {
        Walker {
            x: self.x,
            p: self.p,
            t: self.t * dir,
            curvature: 0.0,
        }
    }
}

// How many points a half holds, and whether it ended on the start.
// Kept (1): closed or not, and below whether the last point was removed, are questions of yes or no, not kinds.
#[derive(Clone, Copy)]
pub(crate) struct Reached {
    pub count: usize,
    pub closed: bool,
}

impl Reached {
    // A half that ended elsewhere.
    fn open(count: usize) -> Reached
        ensures { (result.count ≡ count) × (result.closed ≡ false) }
    {
        Reached {
            count,
            closed: false,
        }
    }
}

// How many points are left before a half closes: the last one may be removed.
fn left_of(count: usize, removed: bool) -> usize
    requires { 3 ≤ count }
    ensures { result ≡ pick removed (count - 1) count }
{
    if removed { count - 1 } else { count }
}

// The points of a half from the front of `out` on, in the order walked: at most n steps from the start.
// Kept (6): n is the step cap; the slice may have room for more.
pub(crate) fn half(
    out: &mut [f64],
    a: Patch,
    b: Patch,
    tol: Tolerance,
    dir: f64,
    start: Start,
    n: usize,
) -> Reached
    requires own { start.p ≡ point_a a start.x }
    requires room { width * n ≤ length out.old }
    ensures { Written (own_row a) n (half_of a b tol dir start.x start.t n) out.new result.count result.closed }
{
    let mut w = start.walker(dir);
    let mut h = first_stride(tol.confusion);
    // Kept (3): the number of steps walked is how many points the half has, which `step` asks.
    for count in 0..n {
        match step(a, b, tol, dir, start.p, count, w, h) {
            Stepped::Onward { next, length } => {
                put(&mut *out, WIDTH * count, row_for(next.p, next.x));
                w = next;
                h = length;
            }
            Stepped::Closed { removed } => {
                let left = left_of(count, removed);
                put(&mut *out, WIDTH * left, row_for(start.p, start.x));
                return Reached {
                    count: left + 1,
                    closed: true,
                };
            }
            Stepped::Edge { y, q } => {
                put(&mut *out, WIDTH * count, row_for(q, y));
                return Reached::open(count + 1);
            }
            Stepped::Ended => return Reached::open(count),
        }
    }
    Reached::open(n)
}
