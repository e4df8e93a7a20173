//! One step of the walk, after the Rust's `trace` (intersect/marching.rs): what a stride of a given length leads to, the stride shortened
//! until it leads somewhere, then the closing test, the edge rule and the length of the next stride.
#![tactic(auto)]

mod attempt;
mod closing;
mod shorten;
pub mod step;

pub use attempt::Walker;
pub use closing::first_stride;
pub use step::Stepped;
