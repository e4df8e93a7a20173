// Newton's method of the Rust's `meet` and `land`: they differ in what is solved beside the meeting and in where they start.
ghost use Rattle.std.specs.Prelude.{◌≡◌};
ghost use Rattle.meeting.specs.Newton.{near_of, trials_of, last_test, newton_round, newton_of, meet_of, meet_in_plane_of, land_of, MetPromise};

use crate::correction::{Residual, Target, newton_correction, residual_at, shifted};
use crate::parameters::with_parameter;
use geometry::{Point3D, Tolerance, Vector3D};
use patch::{Parameters, Patch, inside, within_bounds};
use refusal::Refusal;
use solve::Singular;
use std::ops::ControlFlow;

// The most trials of a correction, and the most rounds.
const MOST_TRIALS: usize = 12;

const MOST_ROUNDS: u64 = 32;

// Where the surfaces were met, or why they were not.
// Kept (1): document 01 gives the form "let Met::At(seed) = meet(..) else return refusal".
#[derive(Clone, Copy)]
pub enum Met {
    At(Parameters),
    Refused(Refusal),
}

// Whether the gap and the plane offset are at most the bound, every parameter inside its window.
fn near(a: Patch, b: Patch, s: Residual, bound: f64) -> bool
    ensures { result ≡ near_of a b s bound }
{
    s.f.magnitude_at_most(bound) && (number::abs(s.r) <= bound && inside(a, b, s.x))
}

// The trials, each with half the scale of the one before: the first with strictly smaller merit, if there is one.
fn trials(a: Patch, b: Patch, target: Target, s: Residual, d: Parameters) -> Option<Residual>
    ensures { result ≡ trials_of a b target s d }
{
    let mut scale = 1.0;
    for _ in 0..MOST_TRIALS {
        let y = within_bounds(a, b, shifted(target, s.x, d, scale));
        let t = residual_at(a, b, target, y);
        if t.merit < s.merit {
            return Some(t);
        }
        scale = scale * 0.5;
    }
    None
}

// The last test, against confusion itself, of rounds that end in this one.
fn last_test(a: Patch, b: Patch, confusion: f64, round: u64, s: Residual) -> Met
    ensures { result ≡ last_test a b confusion round s }
{
    if near(a, b, s, confusion) {
        Met::At(s.x)
    } else {
        Met::Refused(Refusal::NoMeeting(round))
    }
}

// One round: accepted at once, or a correction and its trials. It gives the residual to go on with, or the answer.
fn newton_round(
    a: Patch,
    b: Patch,
    target: Target,
    confusion: f64,
    round: u64,
    s: Residual,
) -> ControlFlow<Met, Residual>
    ensures { result ≡ newton_round a b target confusion round s }
{
    if near(a, b, s, 0.1 * confusion) {
        return ControlFlow::Break(Met::At(s.x));
    }
    let correction = newton_correction(a, b, target, s);
    match correction {
        Err(Singular { column }) => {
            ControlFlow::Break(Met::Refused(Refusal::Singular { round, column }))
        }
        Ok(d) => {
            let Some(t) = trials(a, b, target, s, d) else {
                return ControlFlow::Break(last_test(a, b, confusion, round, s));
            };
            ControlFlow::Continue(t)
        }
    }
}

// The rounds from x, then the last test.
fn newton(a: Patch, b: Patch, target: Target, x: Parameters, confusion: f64) -> Met
    ensures { result ≡ newton_of a b target x confusion }
{
    let mut s = residual_at(a, b, target, x);
    // Kept (3): the round's number is what a refusal hands on.
    for i in 0..MOST_ROUNDS {
        match newton_round(a, b, target, confusion, i, s) {
            ControlFlow::Break(met) => {
                return met;
            }
            ControlFlow::Continue(t) => {
                s = t;
            }
        }
    }
    last_test(a, b, confusion, MOST_ROUNDS, s)
}

// A meeting near x.
pub fn meet(a: Patch, b: Patch, x: Parameters, tol: Tolerance) -> Met
    ensures { MetPromise 3 (meet_of a b x tol) result }
{
    newton(a, b, Target::Free, within_bounds(a, b, x), tol.confusion)
}

// A meeting near x in the plane through the origin with the normal.
pub fn meet_in_plane(
    a: Patch,
    b: Patch,
    x: Parameters,
    origin: Point3D,
    normal: Vector3D,
    tol: Tolerance,
) -> Met
    ensures { MetPromise 4 (meet_in_plane_of a b x origin normal tol) result }
{
    newton(
        a,
        b,
        Target::Plane { origin, normal },
        within_bounds(a, b, x),
        tol.confusion,
    )
}

// A meeting near x with the parameter `pin` held at the value.
pub fn land(a: Patch, b: Patch, x: Parameters, pin: usize, value: f64, tol: Tolerance) -> Met
    ensures { MetPromise 3 (land_of a b x pin value tol) result }
{
    let start = with_parameter(within_bounds(a, b, x), pin, value);
    newton(a, b, Target::Pin(pin), start, tol.confusion)
}
