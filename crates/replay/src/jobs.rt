//! Inputs of the job program, made by `tools/list_job.py`: 402 bytes, a 2-byte length, big-endian, then as many bytes of input, and zeros
//! behind. The lines are written whole.
use crate::records::for_each_record;
use recorded::words::{RECORD, at_most};
use std::io;
use std::io::{Read, Write};

const SIZE: usize = 402;

// Writes the line of an input.
fn written<W: Write>(bytes: &[u8; RECORD], output: &mut W) -> io::Result<()> {
    let end = 2 + at_most(wire::uint::<2>(bytes, 0), 400);
    let mut line = [0u8; answer::line::LINE];
    let count = answer::answer(&bytes[2..end], &mut line);
    output.write_all(&line[..count])
}

// A list of so many records, or as many as there are.
pub fn replay<R: Read, W: Write>(records: u64, input: &mut R, output: &mut W) -> io::Result<()> {
    for_each_record(records, SIZE, 0, input, |bytes| written(bytes, output))
}
