//! The fields and the words of a number's bits, which the functions after fdlibm test. A NaN has those of the one pattern that stands for them all.
ghost use Rattle.std.specs.Prelude.{◌≡◌};
ghost use Rattle.number.specs.Words.{high_word, sign_bit, exponent_field, magnitude_bits};

// The upper 32 bits of the magnitude.
pub fn high_word(x: f64) -> u64
    ensures { result ≡ high_word x }
{
    (crate::to_bits(x) >> 32) & 0x7fff_ffff
}

// 1 where the sign bit is set, else 0.
pub fn sign_bit(x: f64) -> u64
    ensures { result ≡ sign_bit x }
{
    crate::to_bits(x) >> 63
}

// The 11 bits of the exponent.
pub fn exponent_field(x: f64) -> u64
    ensures { result ≡ exponent_field x }
{
    (crate::to_bits(x) >> 52) & 0x7ff
}

// All bits but the sign bit.
pub fn magnitude_bits(x: f64) -> u64
    ensures { result ≡ magnitude_bits x }
{
    crate::to_bits(x) & 0x7fff_ffff_ffff_ffff
}
