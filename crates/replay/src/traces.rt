//! Traces with the answer of the Rust, or the refusal by the scope's rule, and the whole buffer after the call: how many bytes the job has,
//! how many numbers are lent, the answer's word, 352 bytes of which the first are the job, and the words of the numbers after the call.
use crate::compared::Compared;
use recorded::words::{RECORD, at_most, differ, word};
use std::array;
use std::num::nearest_usize_to_f64;

pub struct Traces;

// Where the numbers begin, and how many there are at most.
const NUMBERS: usize = 376;

const MOST: usize = 185;

// What the buffer holds before the call: -0.5, -1.5, -2.5 and on.
fn filled() -> [f64; MOST] {
    array::from_fn(|k| -0.5 - nearest_usize_to_f64(k))
}

impl Compared for Traces {
    const NAME: &'static str = "traces";

    fn size() -> usize {
        NUMBERS
    }

    fn most() -> usize {
        MOST
    }

    fn same(bytes: &[u8; RECORD]) -> bool {
        let end = 24 + at_most(word(bytes, 0), 352);
        let mut buffer = filled();
        let lent = &mut buffer[..at_most(word(bytes, 8), MOST)];
        capi::geomcore_trace(&bytes[24..end], lent) == word(bytes, 16)
            && !differ(&bytes[NUMBERS..], lent)
    }
}
