//! A patch: a surface with the windows and turn marks of its two parameters. Its fitness (refusals 1 to 4), the windows that apply to four
//! parameters, and the public point.
#![tactic(auto)]

pub mod pair;
pub mod patch;
pub mod point;

pub use pair::pair_fitness;
pub use patch::{Parameters, Patch, Window, inside, within_bounds};
