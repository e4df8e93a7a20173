//! A kind of list whose answers are compared, and the replay of such a list.
ghost use Rattle.std.specs.Prelude.{◌≤◌};

use crate::records::for_each_record;
use recorded::tally::Tally;
use recorded::words::RECORD;
use std::io;
use std::io::{Read, Write};

pub trait Compared {
    // What the line of a list calls it.
    const NAME: &'static str;

    // The bytes of a record; of traces, checks and files those before the words that follow.
    fn size() -> usize
        ensures { result ≤ 968 };

    // How many numbers stand behind them at most; the second word says how many.
    fn most() -> usize
        ensures { result ≤ 185 }
    {
        0
    }

    // Whether the recorded answer is given, in bits.
    fn same(bytes: &[u8; RECORD]) -> bool;

    // A list of so many records, or as many as there are.
    final fn replay<R: Read, W: Write>(
        records: u64,
        input: &mut R,
        output: &mut W,
    ) -> io::Result<()> {
        let mut tally = Tally::new();
        for_each_record(records, Self::size(), Self::most(), input, |bytes| {
            tally = tally.counted(Self::same(bytes));
            Ok(())
        })?;
        writeln!(output, "{}: {tally}", Self::NAME)
    }
}
