//! Newton's method of the Rust's intersect/marching.rs: for a meeting of two patches (`meet`, and `meet_in_plane` for the Rust's
//! `meet` with a plane) and for a landing on a window's edge (`land`).
#![tactic(auto)]

pub mod correction;
pub mod newton;
pub mod parameters;

pub use newton::Met;
