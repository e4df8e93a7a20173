//! Tolerances, made by `tools/list_tolerance.py`: confusion, angular, and 1 where refusal 5 lets them through. The ends and their outer
//! neighbours are document 01's example 12.
use crate::compared::Compared;
use geometry::Tolerance;
use recorded::words::{RECORD, word};

pub struct Tolerances;

impl Compared for Tolerances {
    const NAME: &'static str = "tolerances";

    fn size() -> usize {
        24
    }

    fn same(bytes: &[u8; RECORD]) -> bool {
        let tol = Tolerance {
            confusion: number::from_bits(word(bytes, 0)),
            angular: number::from_bits(word(bytes, 8)),
            parametric: 0.0,
        };
        tol.is_fit() == (word(bytes, 16) == 1)
    }
}
