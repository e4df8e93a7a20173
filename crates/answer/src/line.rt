//! The text of the line that answers a job, in ASCII.
ghost use Rattle.std.specs.Prelude.{◌≡◌, ◌+◌, ◌≤◌, ◌++◌};
ghost use Rattle.arrayvec.specs.ArrayString.{array_string_len};
ghost use Rattle.answer.specs.Line.{decimal_of, trace_line, refused_line};

use arrayvec::ArrayString;
use itoa::Buffer;

// How many bytes the longest line has: `trace`, three numbers below 2^64, and what stands between.
pub const LINE: usize = 69;

// Puts the decimal digits of n behind the text.
// Kept (4): a `write!` may answer an error as far as its contract goes, and the line has no case for one.
fn push_number(text: &mut ArrayString<LINE>, n: u64)
    requires { array_string_len text.old + 20 ≤ LINE }
    ensures text { text.new.bytes ≡ text.old.bytes ++ decimal_of n }
    ensures short { array_string_len text.new ≤ array_string_len text.old + 20 }
{
    text.push_str(Buffer::new().format(n));
}

// The line of a trace, of any three numbers.
// Kept (1, 5): the text is one of any three numbers, and a `Traced` has three codes.
pub fn trace_line(count: u64, start: u64, code: u64) -> ArrayString<LINE>
    ensures { result.bytes ≡ trace_line count start code }
{
    let mut trace = ArrayString::<LINE>::new();
    trace.push_str("trace ");
    push_number(&mut trace, count);
    trace.push_str(" ");
    push_number(&mut trace, start);
    trace.push_str(" ");
    push_number(&mut trace, code);
    trace.push_str("\n");
    trace
}

// The line of a refusal.
pub fn refused_line(number: u64) -> ArrayString<LINE>
    ensures { result.bytes ≡ refused_line number }
{
    let mut refusal = ArrayString::<LINE>::new();
    refusal.push_str("refused ");
    push_number(&mut refusal, number);
    refusal.push_str("\n");
    refusal
}
