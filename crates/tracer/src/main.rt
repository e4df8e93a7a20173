//! The job program: a job file on standard input, the answer's line on standard output.
#![tactic(auto)]

ghost use Rattle.std.specs.Prelude.{◌≤◌, length, IfOk};

use std::io;
use std::io::{Read, Write};

// One byte more than a job file has, so that a longer input shows.
const ROOM: usize = 348;

// Fills the bytes from the input, as far as it goes; how many there are.
// Kept (3): `io::copy` (tried) reads again where a read was interrupted, which here is an error (docs/PORT.md), and has 8 KiB of its own.
fn read_full<R: Read>(input: &mut R, bytes: &mut [u8]) -> io::Result<usize>
    ensures { IfOk result (λ n. n ≤ length bytes.new) }
{
    let mut done = 0;
    while done < bytes.len() {
        let count = input.read(&mut bytes[done..])?;
        if count == 0 {
            break;
        }
        done += count;
    }
    Ok(done)
}

fn main(rt: HostRuntime) -> io::Result<()> {
    let mut input = [0u8; ROOM];
    let got = read_full(&mut rt.stdin(), &mut input)?;
    let mut line = [0u8; answer::line::LINE];
    let count = answer::answer(&input[..got], &mut line);
    rt.stdout().write_all(&line[..count])
}
