//! Answers of Java's StrictMath, which is fdlibm 5.3, made by `tools/StrictMathAnswers.java`: six words, y, x, and the bits of sin(x),
//! cos(x), atan(x) and atan2(y, x).
use crate::compared::Compared;
use recorded::words::{RECORD, differ, word};

pub struct StrictMath;

impl Compared for StrictMath {
    const NAME: &'static str = "sines, cosines, arc tangents";

    fn size() -> usize {
        48
    }

    fn same(bytes: &[u8; RECORD]) -> bool {
        let y = number::from_bits(word(bytes, 0));
        let x = number::from_bits(word(bytes, 8));
        let answers = [
            fdlibm::sin(x),
            fdlibm::cos(x),
            arctangent::atan(x),
            arctangent::atan2(y, x),
        ];
        !differ(&bytes[16..], &answers)
    }
}
