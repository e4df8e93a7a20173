//! Linear systems with the answers of the Rust's solvers: 27 words, the number of unknowns, the matrix row by row with the right side and
//! tol (21 words at most, zeros behind), the answer's word, and the solution (4 words at most, zeros behind).
use crate::compared::Compared;
use recorded::words::{RECORD, differ, load, word};

pub struct Systems;

impl Compared for Systems {
    const NAME: &'static str = "square solvers";

    fn size() -> usize {
        216
    }

    fn same(bytes: &[u8; RECORD]) -> bool {
        let mut numbers = [0.0; 21];
        let mut output = [0.0; 4];
        load(&bytes[8..], &mut numbers);
        let said = probe::probe_solve(word(bytes, 0), &numbers, &mut output);
        said == word(bytes, 176) && !differ(&bytes[184..], &output)
    }
}
