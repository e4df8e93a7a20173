//! The public calls: a point of a surface, the line where two surfaces meet, the check of such a line, whether and why it
//! crosses a box, and the file that a line is passed on in.
//!
//! A surface comes as a `patch::Patch`: one of five kinds with its frame and sizes, and the windows and turn marks of its two parameters.
//! Lengths are in kilometres, angles in radians. No call has a condition on its input: what is unfit is refused under a fixed number
//! (`refusal::Refusal::number`), and the definitions named in the contracts settle every answer, refused calls too.
//!
//! A trace stands in a lent list, seven numbers a point: x, y, z of the point of surface A, u and v on A, u and v on B
//! (`groups::WIDTH`, `groups::Row`). The trace file of version 1 has seven numbers of its own (`trace_file`).
#![tactic(auto)]

pub mod call;
