//! Square roots, made by `tools/list_sqrt.py`: argument and root.
use crate::compared::Compared;
use recorded::words::{RECORD, word};

pub struct Roots;

impl Compared for Roots {
    const NAME: &'static str = "square roots";

    fn size() -> usize {
        16
    }

    fn same(bytes: &[u8; RECORD]) -> bool {
        let root = sqrt::sqrt(number::from_bits(word(bytes, 0)));
        number::same_bits(root, number::from_bits(word(bytes, 8)))
    }
}
