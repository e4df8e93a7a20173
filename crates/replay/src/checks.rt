//! Checks with the answer of a second reading of the scope: how many bytes the job has, how many numbers are lent, the count, the start's
//! index and the closing code claimed, the answer's word, 352 bytes of which the first are the job, and the words of the numbers.
use crate::compared::Compared;
use recorded::words::{RECORD, at_most, load, word};

pub struct Checks;

// Where the numbers begin, and how many there are at most.
const NUMBERS: usize = 400;

const MOST: usize = 140;

impl Compared for Checks {
    const NAME: &'static str = "checks";

    fn size() -> usize {
        NUMBERS
    }

    fn most() -> usize {
        MOST
    }

    fn same(bytes: &[u8; RECORD]) -> bool {
        let end = 48 + at_most(word(bytes, 0), 352);
        let lent = at_most(word(bytes, 8), MOST);
        let mut trace = [0.0; MOST];
        load(&bytes[NUMBERS..], &mut trace);
        let count = word(bytes, 16);
        let start = word(bytes, 24);
        let code = word(bytes, 32);
        let said = capi::geomcore_check(&bytes[48..end], &trace[0..lent], count, start, code);
        said == word(bytes, 40)
    }
}
