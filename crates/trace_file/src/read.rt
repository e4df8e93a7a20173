ghost use Rattle.std.specs.Prelude.{◌≡◌};
ghost use Rattle.groups.specs.Traced.{outcome};
ghost use Rattle.trace_file.specs.Layout.{version1, width1};
ghost use Rattle.trace_file.specs.File.{count_in, start_in, code_in, header_fits};
ghost use Rattle.trace_file.specs.Head.{head_where};
ghost use Rattle.trace_file.specs.Read.{read_of};

use crate::format::Format;
use crate::head::Head;
use crate::layout;
use groups::{Claim, Traced};
use refusal::{Refusal, asked};

// The head of a file of the format: what 20 lets through of all that stands before the numbers.
fn head_in(format: Format, file: &[u8]) -> Result<Head, Refusal>
    ensures { result ≡ head_where (header_fits format.version format.width file.now) (count_in file.now) (start_in file.now) (code_in file.now) }
{
    asked(layout::NUMBERS <= file.len(), Refusal::TraceFile)?;
    asked(file[layout::VERSION] == format.version, Refusal::TraceFile)?;
    let head = Head::try_from(Claim {
        count: wire::uint::<2>(file, layout::COUNT) as usize,
        start: wire::uint::<2>(file, layout::START) as usize,
        code: file[layout::CODE] as usize,
    })?;
    let length = u64::from(format.following(head));
    asked(wire::uint::<4>(file, 0) == length, Refusal::TraceFile)?;
    asked(file.len() == format.file_bytes(head), Refusal::TraceFile)?;
    Ok(head)
}

// The trace of a file of the format: refused by all of 20, then by 8 for room, before a number is written.
fn read(format: Format, file: &[u8], numbers: &mut [f64]) -> Result<Traced, Refusal>
    ensures { outcome result numbers.new ≡ read_of format.version format.width file.now numbers.old }
{
    let head = head_in(format, file)?;
    asked(wire::all_finite(file, layout::NUMBERS), Refusal::TraceFile)?;
    let n = format.numbers(head);
    asked(n <= numbers.len(), Refusal::Lent)?;
    wire::fill(&mut numbers[..n], file, layout::NUMBERS);
    Ok(Traced {
        count: usize::from(head.count),
        start: usize::from(head.start),
        closing: head.closing,
    })
}

// The trace of a file of version 1, seven numbers a point.
pub fn read_v1(file: &[u8], numbers: &mut [f64]) -> Result<Traced, Refusal>
    ensures { outcome result numbers.new ≡ read_of version1 width1 file.now numbers.old }
{
    read(Format::VERSION_1, file, &mut *numbers)
}
