//! The check of a trace against its two surfaces: the certificate that a user runs on a line handed in. It reads and writes nothing else.
#![tactic(auto)]

pub mod check;
