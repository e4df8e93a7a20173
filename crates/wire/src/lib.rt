//! Big-endian numbers in lent bytes, read and put down: what the file formats are made of.
#![tactic(auto)]

ghost use Rattle.std.specs.Prelude.{◌≡◌, ◌+◌, ◌-◌, ◌*◌, ◌/◌, ◌^◌, ◌≤◌, ◌<◌, length};
ghost use Rattle.std.specs.List.{list_all};
ghost use Rattle.std.specs.Float.Ieee.Scale.{finite};
ghost use Rattle.loops.specs.Over.{over};
ghost use Rattle.wire.specs.Wire.{uint_at, number_at, numbers_from, uint_bytes, number_bytes, numbers_bytes};

// The number of the N bytes from `at` on, the first of which weighs most. Eight are one load (docs/SPEED.md).
// Kept (3): by std's `from_be_bytes` of a copied array a trace file is read 1.2 times as long.
pub fn uint<const N: usize>(bytes: &[u8], at: usize) -> u64
    requires there { at + N ≤ length bytes.now }
    requires few { N ≤ 8 }
    ensures value { result ≡ uint_at N bytes.now at }
    ensures small { result < 256 ^ N }
{
    let mut x = 0;
    for (k, b) in bytes[at..at + N].iter().rev().enumerate() {
        x += u64::from(*b) << (8 * k);
    }
    x
}

// The binary64 number whose bits are the eight bytes from `at` on; every NaN pattern is a NaN.
pub fn number(bytes: &[u8], at: usize) -> f64
    requires { at + 8 ≤ length bytes.now }
    ensures { result ≡ number_at bytes.now at }
{
    number::from_bits(uint::<8>(bytes, at))
}

// The same of eight bytes alone.
fn number_of(bytes: &[u8; 8]) -> f64
    ensures { result ≡ number_at bytes.now 0 }
{
    number(bytes, 0)
}

// Whether each of the numbers from `at` to the end is finite.
pub fn all_finite(bytes: &[u8], at: usize) -> bool
    requires { at ≤ length bytes.now }
    ensures { result ≡ list_all finite (numbers_from bytes.now at ((length bytes.now - at) / 8)) }
{
    let (numbers, _) = bytes[at..].as_chunks::<8>();
    numbers.iter().map(number_of).all(number::is_finite)
}

// Fills the numbers with those that stand from `at` on.
// Kept (3): over `numbers.iter_mut().zip(chunks)` (tried) no invariant can name the numbers, and nothing is known of them afterwards.
pub fn fill(numbers: &mut [f64], bytes: &[u8], at: usize)
    requires { at + 8 * length numbers.old ≤ length bytes.now }
    ensures { numbers.new ≡ numbers_from bytes.now at (length numbers.old) }
{
    for (k, x) in numbers.iter_mut().enumerate() {
        *x = number(bytes, at + 8 * k);
    }
}

// The N numbers from `at` on.
pub fn numbers<const N: usize>(bytes: &[u8], at: usize) -> [f64; N]
    requires { at + 8 * N ≤ length bytes.now }
    ensures { result ≡ numbers_from bytes.now at N }
{
    let mut numbers = [0.0; N];
    fill(&mut numbers, bytes, at);
    numbers
}

// Puts the N bytes of a number from `at` on.
pub fn put_uint<const N: usize>(bytes: &mut [u8], at: usize, x: u64)
    requires there { at + N ≤ length bytes.old }
    requires few { N ≤ 8 }
    requires fits { x < 256 ^ N }
    ensures { bytes.new ≡ over bytes.old at (uint_bytes N x) }
{
    bytes[at..at + N].copy_from_slice(&x.to_be_bytes()[8 - N..]);
}

// Puts the eight bytes of a number's bits from `at` on; every NaN has one pattern.
pub fn put_number(bytes: &mut [u8], at: usize, x: f64)
    requires { at + 8 ≤ length bytes.old }
    ensures { bytes.new ≡ over bytes.old at (number_bytes x) }
{
    put_uint::<8>(bytes, at, number::to_bits(x));
}

// Puts the numbers from `at` on, one behind the other.
// Kept (3): of `as_chunks_mut` std does not say what the bytes are afterwards.
pub fn put_numbers(bytes: &mut [u8], at: usize, numbers: &[f64])
    requires { at + 8 * length numbers.now ≤ length bytes.old }
    ensures { bytes.new ≡ over bytes.old at (numbers_bytes numbers.now) }
{
    for (k, x) in numbers.iter().enumerate() {
        put_number(bytes, at + 8 * k, *x);
    }
}
