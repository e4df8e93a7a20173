//! Boxes with sides along the axes, and the crossing: whether a trace meets a box.
//! `boxtree` and `pieces` follow the Rust's files of those names, `marching` its `Traced::crosses` for one trace; `crossing` is the
//! public call with its refusals, `explain` the one that says why. A trace is a lent list of numbers, one group a point (crate `groups`).
#![tactic(auto)]

pub mod boxtree;
pub mod crossing;
pub mod explain;
mod marching;
mod pieces;

pub use boxtree::Aabb;
