//! A job answered: its file read, the line walked over numbers lent here, and the answer's line made.
#![tactic(auto)]

pub mod line;

ghost use Rattle.std.specs.Prelude.{◌≡◌};
ghost use Rattle.answer.specs.Answer.{answer_line, answer_of, LinePromise};

use crate::line::LINE;
use arrayvec::ArrayString;
use groups::Traced;
use refusal::Refusal;

// How many numbers the job program lends.
const LENT: usize = 7007;

// The answer's line.
fn line_of(answer: Result<Traced, Refusal>) -> ArrayString<LINE>
    ensures { result.bytes ≡ answer_line answer }
{
    match answer {
        Ok(line) => crate::line::trace_line(
            line.count as u64,
            line.start as u64,
            line.closing.code() as u64,
        ),
        Err(refusal) => crate::line::refused_line(refusal.number()),
    }
}

// The answer to a job: refusal 19 of its file, or what the walk answers over the numbers lent.
fn answer_of(input: &[u8]) -> Result<Traced, Refusal>
    ensures { result ≡ answer_of input.now }
{
    let asked = job::file::read(input)?;
    let mut lent = [0.0; LENT];
    geomcore::call::trace(
        asked.a,
        asked.b,
        asked.tol,
        asked.guess,
        asked.cap,
        &mut lent,
    )
}

// Puts the line that answers a job file at the front of the lent bytes; how many it has. It is a `trace` line only of a line that passes.
// Kept (6): the promise speaks of the caller's array, and of how many of its bytes are the line.
pub fn answer(input: &[u8], line: &mut [u8; LINE]) -> usize
    ensures { LinePromise input.now line.old line.new result }
{
    let text = line_of(answer_of(input));
    let bytes = text.as_str().as_bytes();
    line[..bytes.len()].copy_from_slice(bytes);
    bytes.len()
}
