//! A record and its 8-byte big-endian words.
ghost use Rattle.std.specs.Prelude.{◌≡◌, ◌≤◌, IfOk};
ghost use Rattle.std.specs.Bool.{OnTrue};
ghost use Rattle.std.specs.Io.KnownBytes.{Consumes};
ghost use Rattle.recorded.specs.Words.{word_at, at_most_of, loaded_of, differ_of};

use std::io;
use std::io::{ErrorKind, Read};

// Room for a record of any kind: 968 bytes, and 185 numbers behind them.
pub const RECORD: usize = 2448;

// Fills the bytes from the input. False where there are fewer.
pub fn next<R: Read>(input: &mut R, bytes: &mut [u8]) -> io::Result<bool>
    ensures { IfOk result (λ full. OnTrue full (Consumes (R.remaining input.old) (R.remaining input.new) bytes.new)) }
{
    match input.read_exact(bytes) {
        Ok(()) => Ok(true),
        Err(e) if e.kind() == ErrorKind::UnexpectedEof => Ok(false),
        Err(e) => Err(e),
    }
}

// The eight bytes from `at` on as a big-endian number, or 0 where there are fewer.
pub fn word(bytes: &[u8], at: usize) -> u64
    ensures { result ≡ word_at bytes.now at }
{
    if bytes.len() < 8 {
        return 0;
    }
    if bytes.len() - 8 < at {
        return 0;
    }
    wire::uint::<8>(bytes, at)
}

// A length that a record names, cut to what there is room for.
pub fn at_most(x: u64, most: usize) -> usize
    ensures { (result ≡ at_most_of x most) × (result ≤ most) }
{
    x.min(most as u64) as usize
}

// Fills the numbers with those of the words, from the first on.
// Kept (3): a number whose word is not there is promised to be 0; a `zip` with `as_chunks::<8>()` would leave it as it was.
pub fn load(words: &[u8], numbers: &mut [f64])
    ensures { numbers.new ≡ loaded_of words.now numbers.old }
{
    for (k, x) in numbers.iter_mut().enumerate() {
        *x = number::from_bits(word(words, 8 * k));
    }
}

// Whether the bits of some number are not those of its word.
// Kept (3): a number whose word is not there is compared with 0; a `zip` with `as_chunks::<8>()` would pass over it.
pub fn differ(words: &[u8], numbers: &[f64]) -> bool
    ensures { result ≡ differ_of words.now numbers.now }
{
    numbers
        .iter()
        .enumerate()
        .any(|(k, x)| number::to_bits(*x) != word(words, 8 * k))
}
