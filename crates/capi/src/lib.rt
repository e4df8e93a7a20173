//! The calls over bytes and numbers alone: each function is thin over one of the library below, and its contract is that function's.
//!
//! The static library `capi_c` exports them to C.
#![tactic(auto)]

ghost use Rattle.std.specs.Prelude.{◌≡◌, ◌+◌, ◌*◌, ◌≤◌, ◌<◌, [], ◌∷◌};
ghost use Rattle.capi.specs.Answer.{answered};
ghost use Rattle.groups.specs.Traced.{code_of};
ghost use Rattle.refusal.specs.Verdict.{refusal_of, index_in};
ghost use Rattle.capi.specs.Check.{checked_word, CheckWord};
ghost use Rattle.capi.specs.Crossing.{crossed_word, corner_at, box_given, tolerance_in, crossing_answer};
ghost use Rattle.capi.specs.Explain.{reason_word, value_beside, explained_word, ExplainWord};
ghost use Rattle.boxes.specs.Explain.{value_of};
ghost use Rattle.capi.specs.File.{written_word, WriteWord, ReadWord};
ghost use Rattle.capi.specs.Point.{point_answer};
ghost use Rattle.capi.specs.Trace.{traced_word, Bounded, TraceWord};
ghost use Rattle.arctangent.specs.Arctangent.{atan2_of};
ghost use Rattle.fdlibm.specs.Sine.{sin_of, cos_of};
ghost use Rattle.sqrt.specs.Sqrt.{SqrtGives};
ghost use Rattle.trace_file.specs.Write.{bytes_of};

use boxes::Aabb;
use boxes::explain::Reason;
use geometry::{Point3D, Tolerance};
use groups::{Claim, Traced};
use refusal::Refusal;

// The square root, correctly rounded.
pub fn geomcore_sqrt(x: f64) -> f64
    ensures { SqrtGives x result }
{
    sqrt::sqrt(x)
}

// The sine of an angle; a NaN of an infinite one and of a NaN.
pub fn geomcore_sin(x: f64) -> f64
    ensures { result ≡ sin_of x }
{
    fdlibm::sin(x)
}

// The cosine of an angle; a NaN of an infinite one and of a NaN.
pub fn geomcore_cos(x: f64) -> f64
    ensures { result ≡ cos_of x }
{
    fdlibm::cos(x)
}

// The angle of the point (x, y).
pub fn geomcore_atan2(y: f64, x: f64) -> f64
    ensures { result ≡ atan2_of y x }
{
    arctangent::atan2(y, x)
}

// Puts a point's coordinates down.
fn put(out: &mut [f64; 3], p: Point3D)
    ensures { out.new ≡ p.x ∷ p.y ∷ p.z ∷ [] }
{
    *out = [p.x, p.y, p.z];
}

// Puts the point of a surface, read from its bytes, into the first three numbers of `out`.
fn point(surface: &[u8], u: f64, v: f64, out: &mut [f64]) -> Result<(), Refusal>
    ensures { answered (refusal_of result) out.new ≡ point_answer surface.now u v out.old }
{
    let patch = job::file::read_surface(surface)?;
    let Some(out) = out.first_chunk_mut::<3>() else {
        return Err(Refusal::Lent);
    };
    let p = geomcore::call::point(patch, u, v)?;
    put(out, p);
    Ok(())
}

// The word of an answer that says nothing else: 0, or the refusal's number.
fn word(answer: Result<(), Refusal>) -> u64
    ensures { result ≡ refusal_of answer }
{
    match answer {
        Ok(()) => 0,
        Err(refusal) => refusal.number(),
    }
}

// Puts the point at (u, v) of the surface, given by its 146 bytes of the job file, into the first three numbers of `out`; 0, or the
// refusal's number, and then nothing is written. 19 is tested first, then 8: fewer than three numbers lent.
pub fn geomcore_point(surface: &[u8], u: f64, v: f64, out: &mut [f64]) -> u64
    ensures { answered result out.new ≡ point_answer surface.now u v out.old }
{
    word(point(surface, u, v, out))
}

// The word of a line: 2^8 times the code, 2^16 times the start's index and 2^32 times the count.
fn line_word(line: Traced) -> u64
    requires { (line.count < 4294967296) × (line.start < 65536) }
    ensures { result ≡ code_of line.closing * 256 + line.start * 65536 + line.count * 4294967296 }
{
    let code = line.closing.code();
    (code as u64) * 256 + (line.start as u64) * 65536 + (line.count as u64) * 4294967296
}

// The answer's word: the refusal's number, 2^8 times its round and 2^16 times its column, or the line's word. Each part has room in its
// own place of it.
fn traced_word(answer: Result<Traced, Refusal>) -> u64
    requires { Bounded answer }
    ensures { result ≡ traced_word answer }
{
    match answer {
        Ok(line) => line_word(line),
        Err(refusal) => {
            let n = refusal.numbers();
            n.number + n.round * 256 + n.column * 65536
        }
    }
}

// Walks the line that a job file asks for over the lent numbers, which may be any. A low byte of 0 means that the line in the buffer passes
// the check, with the count, start and code of the word; beside 9 and 21 the byte above it is the Newton round in which the meeting gave up,
// beside 21 the two bytes above that the column at which the solve did.
// Kept (1): a function with `?` copies the job once more: a trace refused by 8 takes 210 ns for 200.
pub fn geomcore_trace(job: &[u8], buffer: &mut [f64]) -> u64
    ensures { TraceWord job.now buffer.old buffer.new result }
{
    match job::file::read(job) {
        Err(refusal) => refusal.number(),
        Ok(asked) => traced_word(geomcore::call::trace(
            asked.a,
            asked.b,
            asked.tol,
            asked.guess,
            asked.cap,
            buffer,
        )),
    }
}

// The word of a refusal: its number, and 2^32 times the index of the point that it names.
fn refused_word(number: u64, index: u64) -> u64
    requires { (number < 256) × (index < 4294967296) }
    ensures { result ≡ number + index * 4294967296 }
{
    number + index * 4294967296
}

// The answer's word: 0, or the refusal's word.
fn checked_word(answer: Result<(), Refusal>) -> u64
    requires { index_in answer < 4294967296 }
    ensures { result ≡ checked_word answer }
{
    match answer {
        Ok(()) => 0,
        Err(refusal) => {
            let n = refusal.numbers();
            refused_word(n.number, n.index)
        }
    }
}

// What C claims of a trace.
// Kept (1, 5): C hands over three numbers of any size; here they become one claim.
fn claim(count: u64, start: u64, code: u64) -> Claim
    ensures { result ≡ record { count = count; start = start; code = code } }
{
    Claim {
        count: count as usize,
        start: start as usize,
        code: code as usize,
    }
}

// Checks a claimed trace against the surfaces and tolerance of a job file; its guess and cap aren't read. The word is 0 exactly when the
// bytes are a job and the trace passes.
// Kept (1): a function with `?` copies the job once more: five points are checked in 488 ns for 450, and a file refused in 39 for 18.
pub fn geomcore_check(job: &[u8], buffer: &[f64], count: u64, start: u64, code: u64) -> u64
    ensures { CheckWord job.now buffer.now count start code result }
{
    match job::file::read(job) {
        Err(refusal) => refusal.number(),
        Ok(asked) => {
            let claim = claim(count, start, code);
            checked_word(geomcore::call::check(asked.a, asked.b, asked.tol, buffer, claim))
        }
    }
}

// The answer's word: the refusal's number, and 2^8 where the trace is crossed.
fn crossed_word(answer: Result<bool, Refusal>) -> u64
    ensures { result ≡ crossed_word answer }
{
    match answer {
        Ok(true) => 256,
        Ok(false) => 0,
        Err(refusal) => refusal.number(),
    }
}

// Three of the six numbers of a box.
// Kept (6): `first_chunk` of what stands from `at` on is an `Option`, and here there is no case for `None`.
fn corner(corners: &[f64; 6], at: usize) -> Point3D
    requires { at + 3 ≤ 6 }
    ensures { result ≡ corner_at corners.now at }
{
    Point3D::new(corners[at], corners[at + 1], corners[at + 2])
}

// The box whose corners are given, low x, y, z, then high; none where there are fewer than six numbers.
fn box_given(corners: &[f64]) -> Option<Aabb>
    ensures { result ≡ box_given corners.now }
{
    let corners = corners.first_chunk::<6>()?;
    Some(Aabb {
        low: corner(corners, 0),
        high: corner(corners, 3),
    })
}

// What C says of the tolerance: the parametric one isn't read.
fn tolerance(confusion: f64, angular: f64) -> Tolerance
    ensures { result ≡ tolerance_in confusion angular }
{
    Tolerance {
        confusion,
        angular,
        parametric: 0.0,
    }
}

// Whether a trace of `count` points crosses the box whose corners are given, low x, y, z, then high. Fewer than six corners answer 8.
pub fn geomcore_crossing(
    confusion: f64,
    angular: f64,
    buffer: &[f64],
    count: u64,
    corners: &[f64],
) -> u64
    ensures { result ≡ crossing_answer confusion angular buffer.now count corners.now }
{
    // Kept (1): a function that ends in `?` would take the same five arguments for this one refusal.
    let Some(b) = box_given(corners) else {
        return Refusal::Lent.number();
    };
    let tol = tolerance(confusion, angular);
    crossed_word(geomcore::call::crossing(tol, buffer, count as usize, b))
}

// The word of a reason: 2^8 times its kind, and 2^32 times its value.
fn reason_word(reason: Reason) -> u64
    requires { value_of reason < 4294967296 }
    ensures { result ≡ reason_word reason }
{
    match reason {
        Reason::Segment(i) => 256 + (i as u64) * 4294967296,
        Reason::WholeApart(axis) => 512 + (axis as u64) * 4294967296,
        Reason::RunsApart => 768,
        Reason::NoneMet(n) => 1024 + (n as u64) * 4294967296,
    }
}

// The answer's word: the reason's, or the refusal's number.
fn explained_word(answer: Result<Reason, Refusal>) -> u64
    requires { value_beside answer < 4294967296 }
    ensures { result ≡ explained_word answer }
{
    match answer {
        Ok(reason) => reason_word(reason),
        Err(refusal) => refusal.number(),
    }
}

// Why a trace of `count` points crosses the box whose corners are given, or why not: in the byte above the number 1 a segment, 2 the whole
// box apart, 3 all runs apart, 4 none met; in the upper half the segment's index, the axis, 0, how many segments. Fewer than six corners
// answer 8.
pub fn geomcore_explain(
    confusion: f64,
    angular: f64,
    buffer: &[f64],
    count: u64,
    corners: &[f64],
) -> u64
    ensures { ExplainWord confusion angular buffer.now count corners.now result }
{
    // Kept (1): as in `geomcore_crossing`.
    let Some(b) = box_given(corners) else {
        return Refusal::Lent.number();
    };
    let tol = tolerance(confusion, angular);
    explained_word(geomcore::call::explain(tol, buffer, count as usize, b))
}

// The answer's word: the refusal's number, and 2^32 times how many bytes were written.
fn written_word(answer: Result<usize, Refusal>) -> u64
    requires { bytes_of answer < 4294967296 }
    ensures { result ≡ written_word answer }
{
    match answer {
        Ok(n) => (n as u64) * 4294967296,
        Err(refusal) => refusal.number(),
    }
}

// Writes the first `count` points of the buffer, seven numbers each, to the front of the lent bytes as a trace file of version 1.
pub fn geomcore_write_v1(buffer: &[f64], count: u64, start: u64, code: u64, file: &mut [u8]) -> u64
    ensures { WriteWord buffer.now count start code file.old file.new result }
{
    let claim = claim(count, start, code);
    written_word(geomcore::call::write_v1(buffer, claim, file))
}

// Reads a trace file of version 1 into the front of the buffer. The word is the trace's: count, start and code, or the refusal's number.
pub fn geomcore_read_v1(file: &[u8], buffer: &mut [f64]) -> u64
    ensures { ReadWord file.now buffer.old buffer.new result }
{
    traced_word(geomcore::call::read_v1(file, buffer))
}
