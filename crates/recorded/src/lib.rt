//! What a program that replays recorded outside answers shares: the words of a record, what is counted, and the line that says it.
#![tactic(auto)]

pub mod tally;
pub mod words;
