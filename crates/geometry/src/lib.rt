//! Vectors, tolerances, points and frames by value: what the walk calls of the Rust's vector.rs, tolerance.rs, point.rs and frame.rs, file
//! by file. Every operation rounds once, in the Rust's order of evaluation.
#![tactic(auto)]

pub mod frame;
pub mod point;
pub mod tolerance;
pub mod vector;

pub use frame::Frame3D;
pub use point::Point3D;
pub use tolerance::Tolerance;
pub use vector::Vector3D;
