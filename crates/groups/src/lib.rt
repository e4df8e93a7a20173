//! Groups of numbers in a flat lent list, one group a point. The width of a group and the least and most points of a trace stand here, once
//! for the code and once for the definitions (`specs/Groups.antt`); the laws in `proofs/Groups.antt` hold for every width.
#![tactic(auto)]

pub mod row;
pub mod traced;

ghost use Rattle.std.specs.Prelude.{◌≡◌};
ghost use Rattle.groups.specs.Groups.{width, count_fits, holds_of};

pub use row::Row;
pub use traced::{Claim, Closing, Traced};

// How many numbers a point has: x, y, z, then u, v on the first surface and u, v on the second.
pub const WIDTH: usize = 7;

// How many points a trace has.
pub const LEAST_POINTS: usize = 4;

pub const MOST_POINTS: usize = 4001;

// What refusal 12 lets through of a count.
pub fn count_fits(count: usize) -> bool
    ensures { result ≡ count_fits count }
{
    LEAST_POINTS <= count && count <= MOST_POINTS
}

// Whether the list has a whole group for each of `count` points. No product is formed, so that no count is too large.
// Kept (6): the count is the caller's claim, which is tested here.
pub fn holds(numbers: &[f64], count: usize) -> bool
    ensures { result ≡ holds_of width numbers.now count }
{
    count <= numbers.len() / WIDTH
}
