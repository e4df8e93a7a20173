ghost use Rattle.std.specs.Prelude.{◌≡◌, ◌≤◌, length};
ghost use Rattle.loops.specs.Over.{written};
ghost use Rattle.groups.specs.Traced.{code_of};
ghost use Rattle.trace_file.specs.Layout.{numbers_place, version1, width1};
ghost use Rattle.trace_file.specs.File.{header_of, all_finite};
ghost use Rattle.trace_file.specs.Write.{filed, write_of};

use crate::format::Format;
use crate::head::Head;
use crate::layout;
use groups::Claim;
use refusal::{Refusal, asked};

// Whether each of the numbers is finite.
fn all_finite(numbers: &[f64]) -> bool
    ensures { result ≡ all_finite numbers.now }
{
    numbers.iter().all(|x| number::is_finite(*x))
}

// Puts all that stands before the numbers at the front.
fn put_header(file: &mut [u8], format: Format, head: Head)
    requires { numbers_place ≤ length file.old }
    ensures { file.new ≡ written (header_of format.version format.width head.count head.start (code_of head.closing)) file.old }
{
    wire::put_uint::<4>(&mut *file, 0, u64::from(format.following(head)));
    file[layout::VERSION] = format.version;
    wire::put_uint::<2>(&mut *file, layout::COUNT, u64::from(head.count));
    wire::put_uint::<2>(&mut *file, layout::START, u64::from(head.start));
    file[layout::CODE] = head.closing.code() as u8;
}

// The trace that is claimed at the head of the list, as a file of the format. Refused before a byte is written: 20 for the claim, 8 for
// numbers or room, 20 for a number that is not finite.
fn write(format: Format, numbers: &[f64], claim: Claim, file: &mut [u8]) -> Result<usize, Refusal>
    ensures { filed result file.new ≡ write_of format.version format.width numbers.now claim.count claim.start claim.code file.old }
{
    let head = Head::try_from(claim)?;
    let n = format.numbers(head);
    asked(n <= numbers.len(), Refusal::Lent)?;
    let bytes = format.file_bytes(head);
    asked(bytes <= file.len(), Refusal::Lent)?;
    let numbers = &numbers[..n];
    asked(all_finite(numbers), Refusal::TraceFile)?;
    put_header(&mut *file, format, head);
    wire::put_numbers(&mut *file, layout::NUMBERS, numbers);
    Ok(bytes)
}

// A trace as a file of version 1, seven numbers a point: how many bytes the file has.
pub fn write_v1(numbers: &[f64], claim: Claim, file: &mut [u8]) -> Result<usize, Refusal>
    ensures { filed result file.new ≡ write_of version1 width1 numbers.now claim.count claim.start claim.code file.old }
{
    write(Format::VERSION_1, numbers, claim, &mut *file)
}
