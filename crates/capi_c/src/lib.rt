//! The C interface: each function exports that of the same name of `capi`, under the same contract.
//!
//! `tools/staticlib.sh capi` writes the archive. A slice passes as a pointer and a length.
#![tactic(auto)]

ghost use Rattle.std.specs.Prelude.{◌≡◌};
ghost use Rattle.capi.specs.Answer.{answered};
ghost use Rattle.capi.specs.Check.{CheckWord};
ghost use Rattle.capi.specs.Crossing.{crossing_answer};
ghost use Rattle.capi.specs.Explain.{ExplainWord};
ghost use Rattle.capi.specs.File.{WriteWord, ReadWord};
ghost use Rattle.capi.specs.Point.{point_answer};
ghost use Rattle.capi.specs.Trace.{TraceWord};
ghost use Rattle.arctangent.specs.Arctangent.{atan2_of};
ghost use Rattle.fdlibm.specs.Sine.{sin_of, cos_of};
ghost use Rattle.sqrt.specs.Sqrt.{SqrtGives};

// The square root, correctly rounded.
#[unsafe(no_mangle)]
pub extern "C" fn geomcore_sqrt(x: f64) -> f64
    ensures { SqrtGives x result }
{
    capi::geomcore_sqrt(x)
}

// The sine of an angle; a NaN of an infinite one and of a NaN.
#[unsafe(no_mangle)]
pub extern "C" fn geomcore_sin(x: f64) -> f64
    ensures { result ≡ sin_of x }
{
    capi::geomcore_sin(x)
}

// The cosine of an angle; a NaN of an infinite one and of a NaN.
#[unsafe(no_mangle)]
pub extern "C" fn geomcore_cos(x: f64) -> f64
    ensures { result ≡ cos_of x }
{
    capi::geomcore_cos(x)
}

// The angle of the point (x, y).
#[unsafe(no_mangle)]
pub extern "C" fn geomcore_atan2(y: f64, x: f64) -> f64
    ensures { result ≡ atan2_of y x }
{
    capi::geomcore_atan2(y, x)
}

// Puts the point at (u, v) of the surface, given by its 146 bytes of the job file, into the first three numbers of `out`; 0, or the
// refusal's number, and then nothing is written. 19 is tested first, then 8: fewer than three numbers lent.
#[unsafe(no_mangle)]
pub extern "C" fn geomcore_point(surface: &[u8], u: f64, v: f64, out: &mut [f64]) -> u64
    ensures { answered result out.new ≡ point_answer surface.now u v out.old }
{
    capi::geomcore_point(surface, u, v, out)
}

// Walks the line that a job file asks for over the lent numbers, which may be any. A low byte of 0 means that the line in the buffer passes
// the check, with the count, start and code of the word; beside 9 and 21 the byte above it is the Newton round in which the meeting gave up,
// beside 21 the two bytes above that the column at which the solve did.
#[unsafe(no_mangle)]
pub extern "C" fn geomcore_trace(job: &[u8], buffer: &mut [f64]) -> u64
    ensures { TraceWord job.now buffer.old buffer.new result }
{
    capi::geomcore_trace(job, buffer)
}

// Checks a claimed trace against the surfaces and tolerance of a job file; its guess and cap aren't read. The word is 0 exactly when the
// bytes are a job and the trace passes.
// Kept (1, 5): C hands the claim over one by one.
#[unsafe(no_mangle)]
pub extern "C" fn geomcore_check(
    job: &[u8],
    buffer: &[f64],
    count: u64,
    start: u64,
    code: u64,
) -> u64
    ensures { CheckWord job.now buffer.now count start code result }
{
    capi::geomcore_check(job, buffer, count, start, code)
}

// Whether a trace of `count` points crosses the box whose corners are given, low x, y, z, then high. Fewer than six corners answer 8.
#[unsafe(no_mangle)]
pub extern "C" fn geomcore_crossing(
    confusion: f64,
    angular: f64,
    buffer: &[f64],
    count: u64,
    corners: &[f64],
) -> u64
    ensures { result ≡ crossing_answer confusion angular buffer.now count corners.now }
{
    capi::geomcore_crossing(confusion, angular, buffer, count, corners)
}

// Why a trace of `count` points crosses the box whose corners are given, or why not: in the byte above the number 1 a segment, 2 the whole
// box apart, 3 all runs apart, 4 none met; in the upper half the segment's index, the axis, 0, how many segments. Fewer than six corners
// answer 8.
#[unsafe(no_mangle)]
pub extern "C" fn geomcore_explain(
    confusion: f64,
    angular: f64,
    buffer: &[f64],
    count: u64,
    corners: &[f64],
) -> u64
    ensures { ExplainWord confusion angular buffer.now count corners.now result }
{
    capi::geomcore_explain(confusion, angular, buffer, count, corners)
}

// Writes the first `count` points of the buffer, seven numbers each, to the front of the lent bytes as a trace file of version 1.
// Kept (1, 5): C hands the claim over one by one.
#[unsafe(no_mangle)]
pub extern "C" fn geomcore_write_v1(
    buffer: &[f64],
    count: u64,
    start: u64,
    code: u64,
    file: &mut [u8],
) -> u64
    ensures { WriteWord buffer.now count start code file.old file.new result }
{
    capi::geomcore_write_v1(buffer, count, start, code, file)
}

// Reads a trace file of version 1 into the front of the buffer. The word is the trace's: count, start and code, or the refusal's number.
#[unsafe(no_mangle)]
pub extern "C" fn geomcore_read_v1(file: &[u8], buffer: &mut [f64]) -> u64
    ensures { ReadWord file.now buffer.old buffer.new result }
{
    capi::geomcore_read_v1(file, buffer)
}
