//! What the computed gap of two points says of the exact one: no code, only the theorem and its steps (proofs/Gap.antt).
#![tactic(auto)]
