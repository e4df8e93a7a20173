//! What the public calls promise, on one page (specs/Promises.antt), and the laws behind it: every line that the walk answers passes, at every
//! point of a line that passes the exact gap is small, and so the contracts follow from the equations of what the calls call. No code.
#![tactic(auto)]
