//! Loops as functions of the definitions: no code, only what other crates' definitions and proofs cite.
#![tactic(auto)]
