ghost use Rattle.trace_file.specs.Layout.{version1, width1};
ghost use Rattle.passing.specs.Promises.{PointPromise, TracePromise, CheckPromise, CrossingPromise, ExplainPromise, StretchPromise, WriteV1Promise, ReadPromise};

use boxes::Aabb;
use boxes::explain::Reason;
use geometry::{Point3D, Tolerance};
use groups::{Claim, Traced};
use patch::{Parameters, Patch};
use refusal::Refusal;

// The point of a surface at (u, v). Refused: 1 to 4 for an unfit surface, then 6 for a parameter that is not finite. The windows are not
// applied.
pub fn point(patch: Patch, u: f64, v: f64) -> Result<Point3D, Refusal>
    ensures { PointPromise patch u v result }
{
    patch::point::point(patch, u, v)
}

// The line where A and B meet, through the meeting that the guess leads to, by at most `cap` steps forward and as many backward.
//
// The answer holds the count of points, the start's index and the closing, whose code is 0 open, 1 closed forward, 2 closed backward.
// Refused, in this order: 1 to 4 for A, the same for B, 5 the tolerance, 6 a guess that is not finite, 7 a cap outside 2 to 2000, 8 fewer than
// 7 (2 cap + 1) numbers lent, 9 no meeting or in its place 21 where a solve for it gave up, 10 no direction there, 11 fewer than 4 points.
// 9 and 21 are what `meet` of the guess answers, with its Newton round, from 0.
//
// The buffer: refusals 1 to 8 touch nothing. 9, 21, 10 and 11 leave its first 7 (2 cap + 1) numbers zero. A line stands at its front, zeros
// follow up to 7 (2 cap + 1), and nothing beyond changes.
//
// Every line that it answers passes the check, and at each of its points the exact squared gap is at most confusion squared times
// (1 + 2^-50).
pub fn trace(
    a: Patch,
    b: Patch,
    tol: Tolerance,
    guess: Parameters,
    cap: usize,
    buffer: &mut [f64],
) -> Result<Traced, Refusal>
    ensures { TracePromise a b tol guess cap buffer.old buffer.new result }
{
    walk::trace::trace(a, b, tol, guess, cap, &mut *buffer)
}

// Whether the trace claimed, at the front of the list, is one of A and B: passed exactly when `Passes` holds. Refused, in this
// order: 1 to 4 for A, the same for B, 5, 8 fewer than 7 numbers for each point claimed, 12 a count outside 4 to 4001, a start index not
// below it, a code above 2 or a closing that is not so; then point by point, with the point's index, 14 a parameter outside its window,
// 13 not A's own point, 15 a gap not at most the confusion, 16 a chord not at most 0.2. It writes nothing. At each point of a trace that
// passes the exact squared gap is at most confusion squared times (1 + 2^-50).
pub fn check(a: Patch, b: Patch, tol: Tolerance, trace: &[f64], claim: Claim) -> Result<(), Refusal>
    ensures { CheckPromise a b tol trace.now claim.count claim.start claim.code result }
{
    certificate::check::check(a, b, tol, trace, claim)
}

// Whether the trace of `count` points at the front of the list crosses the box, grown by 8000 times the confusion: yes exactly when some
// segment counts. Refused, in this order:
// 5, 8, 12 (the count alone), 18 a coordinate that is not finite or above 2^20 in magnitude, 17 the same of the box, or a low side above
// its high side. It writes nothing.
pub fn crossing(tol: Tolerance, points: &[f64], count: usize, b: Aabb) -> Result<bool, Refusal>
    ensures { CrossingPromise tol points.now count b result }
{
    boxes::crossing::crossing(tol, points, count, b)
}

// Why the trace crosses the box, or why not: the first of these that holds, the box grown as for `crossing`. `Segment`: the first segment
// that counts, by its index in the trace from 0, and so exactly where `crossing` says yes. `WholeApart`: the box of the whole trace is
// apart, on the axis x, y, z as 0, 1, 2 first. `RunsApart`: the boxes of all runs of 16 segments are apart. `NoneMet`: so many segments, 1
// at least, lie in runs that are not apart, and none met the box. Refused as `crossing`, in its order. It writes nothing.
pub fn explain(tol: Tolerance, points: &[f64], count: usize, b: Aabb) -> Result<Reason, Refusal>
    ensures { ExplainPromise tol points.now count b result }
{
    boxes::explain::explain(tol, points, count, b)
}

// The stretch of the lent list that has the two points of the segment that `explain` names, itself and not a copy; an empty one where it
// names none or refuses.
pub fn stretch(tol: Tolerance, points: &[f64], count: usize, b: Aabb) -> &[f64]
    ensures { StretchPromise tol points.now count b result.now }
{
    boxes::explain::stretch(tol, points, count, b)
}

// The trace that is claimed at the front of the list, written to the front of the lent bytes as a file of version 1, seven numbers a
// point: how many bytes it has, 10 + 56 for each point. Refused, in this order: 20 a count outside 4 to 4001, a start index not below it
// or a code above 2; 8 fewer than 7 numbers for each point, or fewer bytes than the file has; 20 a number that is not finite.
//
// A refusal writes nothing, and nothing beyond the file changes. Read into room enough the file gives the trace back, bit for bit. A
// trace that passes the check is refused at most by 8.
pub fn write_v1(trace: &[f64], claim: Claim, file: &mut [u8]) -> Result<usize, Refusal>
    ensures { WriteV1Promise trace.now claim.count claim.start claim.code file.old file.new result }
{
    trace_file::write::write_v1(trace, claim, &mut *file)
}

// The trace of a file of version 1, its numbers at the front of the list, seven a point. Refused: 20 for bytes that are no such file (a
// version other than 1, what 20 of the writer refuses, a length that does not agree with the count and with the bytes handed over), then 8
// fewer than 7 numbers for each point. It judges no geometry: the check does.
//
// A refusal writes nothing, and nothing beyond the trace changes. A file that reads, written again, is that file, byte for byte: only one
// file stands for a trace.
pub fn read_v1(file: &[u8], buffer: &mut [f64]) -> Result<Traced, Refusal>
    ensures { ReadPromise version1 width1 file.now buffer.old buffer.new result }
{
    trace_file::read::read_v1(file, &mut *buffer)
}
