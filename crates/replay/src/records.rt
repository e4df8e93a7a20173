//! The records of a list, one after the other.
ghost use Rattle.std.specs.Prelude.{◌≤◌};

use recorded::words::{RECORD, at_most, next, word};
use std::io;
use std::io::Read;

// The next record: `size` bytes, and as many words behind them as its second word says, `most` at most. False at the end of the list.
fn read<R: Read>(
    size: usize,
    most: usize,
    input: &mut R,
    bytes: &mut [u8; RECORD],
) -> io::Result<bool>
    requires { (size ≤ 968) × (most ≤ 185) }
{
    if !next(input, &mut bytes[..size])? {
        return Ok(false);
    }
    let end = size + 8 * at_most(word(bytes, 8), most);
    next(input, &mut bytes[size..end])
}

// Hands each record of a list to `each`: so many, or as many as there are.
pub fn for_each_record<R: Read, F: FnMut(&[u8; RECORD]) -> io::Result<()>>(
    records: u64,
    size: usize,
    most: usize,
    input: &mut R,
    mut each: F,
) -> io::Result<()>
    requires room { (size ≤ 968) × (most ≤ 185) }
    requires callable { F.IsAlwaysCallable each }
{
    for _ in 0..records {
        let mut bytes = [0u8; RECORD];
        if !read(size, most, input, &mut bytes)? {
            break;
        }
        each(&bytes)?;
    }
    Ok(())
}
