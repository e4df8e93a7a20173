//! The trace file: a trace as bytes, for who passes a line on. `layout` has the places of its parts, `format` its versions, `head` what 20
//! lets through; `write` writes it, `read` reads it.
//!
//! The format is an argument of every function but the public ones. Version 1 has seven numbers a point: its own seven, whatever a trace in
//! memory has.
#![tactic(auto)]

mod format;
mod head;
mod layout;
pub mod read;
pub mod write;
