//! The walk along the line where two surfaces meet, after the Rust's `trace` (intersect/marching.rs): one half, both halves in the lent
//! buffer, and the call with its refusals.
#![tactic(auto)]

mod half;
mod lent;
mod line;
pub mod trace;
