//! The job file: two surfaces, a tolerance, a guess and a cap in 347 bytes. `layout` has the places of its parts, `marks` what a mark byte says,
//! `file` reads it.
#![tactic(auto)]

pub mod file;
mod layout;
mod marks;

pub use file::Job;
