//! Two steps of the walk along the curve where two patches meet, after the Rust's intersect/marching.rs: the prediction, and where a move
//! leaves a window. `tangent` of that file is the crate `tangent`; Newton's method, `meet` and `land`, is the crate `meeting`.
#![tactic(auto)]

pub mod leaving;
pub mod predict;

pub use leaving::Exit;
