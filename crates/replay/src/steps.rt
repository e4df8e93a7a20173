//! Steps of the walk with the answers of the Rust: 61 words, the function (0 tangent, 1 predict, 2 leaving, 3 meet, 4 meet in a plane,
//! 5 land), the pin, 54 numbers, the answer's word, and 4 words of output, zeros where nothing is written.
use crate::compared::Compared;
use recorded::words::{RECORD, differ, load, word};

pub struct Steps;

impl Compared for Steps {
    const NAME: &'static str = "steps of the walk";

    fn size() -> usize {
        488
    }

    fn same(bytes: &[u8; RECORD]) -> bool {
        let mut numbers = [0.0; 54];
        let mut output = [0.0; 4];
        load(&bytes[16..], &mut numbers);
        let said = probe::steps::probe_step(word(bytes, 0), word(bytes, 8), &numbers, &mut output);
        said == word(bytes, 448) && !differ(&bytes[456..], &output)
    }
}
