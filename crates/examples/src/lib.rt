//! The charted examples that are proved: one table of statements about the definitions, no code.
#![tactic(auto)]
