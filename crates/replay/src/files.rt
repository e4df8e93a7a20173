//! Trace files written and read, with the answer of a second reading of request A1 and all bytes or numbers lent after the call: what is
//! done (0 written, 1 read), how many words follow, the count (of a file read, how many bytes it has), the start's index (how many numbers
//! are lent), the code, how many numbers are lent, how many bytes (0 of a file read), the answer's word. Then the numbers lent and the
//! bytes after the call; or the bytes of the file and the numbers after the call. Bytes end on a whole word, zeros behind them.
use crate::compared::Compared;
use recorded::words::{RECORD, at_most, differ, load, word};

pub struct Files;

// Records of a list whose number no kind has: as those of trace files, with no words behind.
pub struct Others;

// What the line of either list calls it.
const WHAT: &str = "trace files";

// Where the words that follow begin, and how many there are at most.
const NUMBERS: usize = 64;

const MOST: usize = 185;

const MOST_BYTES: usize = 1480;

// What lent bytes and numbers hold before the call.
const BYTE: u8 = 0xa5;

const NUMBER: f64 = -0.5;

// Whether the writer says so and leaves these bytes.
fn same_written(bytes: &[u8; RECORD]) -> bool {
    let lent = at_most(word(bytes, 40), MOST);
    let room = at_most(word(bytes, 48), MOST_BYTES - 8 * lent);
    let after = NUMBERS + 8 * lent;
    let words = &bytes[after..after + room];
    let mut numbers = [0.0; MOST];
    load(&bytes[NUMBERS..], &mut numbers);
    let mut file = [BYTE; MOST_BYTES];
    let file = &mut file[..room];
    let count = word(bytes, 16);
    let start = word(bytes, 24);
    let code = word(bytes, 32);
    capi::geomcore_write_v1(&numbers[..lent], count, start, code, file) == word(bytes, 56)
        && *file == *words
}

// Whether the reader says so and leaves these numbers.
fn same_read(bytes: &[u8; RECORD]) -> bool {
    let size = at_most(word(bytes, 16), MOST_BYTES);
    let after = NUMBERS + size.next_multiple_of(8);
    let mut numbers = [NUMBER; MOST];
    let lent = &mut numbers[..at_most(word(bytes, 24), MOST)];
    capi::geomcore_read_v1(&bytes[NUMBERS..NUMBERS + size], lent) == word(bytes, 56)
        && !differ(&bytes[after..], lent)
}

impl Compared for Files {
    const NAME: &'static str = WHAT;

    fn size() -> usize {
        NUMBERS
    }

    fn most() -> usize {
        MOST
    }

    fn same(bytes: &[u8; RECORD]) -> bool {
        if word(bytes, 0) == 0 {
            same_written(bytes)
        } else {
            same_read(bytes)
        }
    }
}

impl Compared for Others {
    const NAME: &'static str = WHAT;

    fn size() -> usize {
        NUMBERS
    }

    fn same(bytes: &[u8; RECORD]) -> bool {
        Files::same(bytes)
    }
}
