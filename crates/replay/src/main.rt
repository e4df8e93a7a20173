//! Replays recorded outside answers and writes how many differ: `square roots: 7574 compared, 0 differ`, and the answers to jobs whole.
//!
//! Standard input holds lists, one behind the other. A list is headed by two 8-byte big-endian words, its kind and how many records it
//! has; the module of a kind says what a record is. `tools/lists.py` puts a list in its place.
#![tactic(auto)]

mod checks;
mod compared;
mod crossings;
mod files;
mod jobs;
mod kind;
mod records;
mod roots;
mod steps;
mod strict_math;
mod surfaces;
mod systems;
mod tolerances;
mod traces;

use checks::Checks;
use compared::Compared;
use crossings::Crossings;
use files::{Files, Others};
use kind::Kind;
use recorded::words::{next, word};
use roots::Roots;
use std::io;
use std::io::{Read, Write};
use steps::Steps;
use strict_math::StrictMath;
use surfaces::Surfaces;
use systems::Systems;
use tolerances::Tolerances;
use traces::Traces;

// How many lists there are at most.
const LISTS: usize = 11;

// The next list. False where there is none.
fn list<R: Read, W: Write>(input: &mut R, output: &mut W) -> io::Result<bool> {
    let mut head = [0u8; 16];
    if !next(input, &mut head)? {
        return Ok(false);
    }
    let records = word(&head, 8);
    match Kind::from(word(&head, 0)) {
        Kind::Roots => Roots::replay(records, input, output),
        Kind::Tolerances => Tolerances::replay(records, input, output),
        Kind::StrictMath => StrictMath::replay(records, input, output),
        Kind::Systems => Systems::replay(records, input, output),
        Kind::Surfaces => Surfaces::replay(records, input, output),
        Kind::Crossings => Crossings::replay(records, input, output),
        Kind::Steps => Steps::replay(records, input, output),
        Kind::Jobs => jobs::replay(records, input, output),
        Kind::Traces => Traces::replay(records, input, output),
        Kind::Checks => Checks::replay(records, input, output),
        Kind::Files => Files::replay(records, input, output),
        Kind::Other => Others::replay(records, input, output),
    }?;
    Ok(true)
}

// One list of each kind at most: a proved loop has to end.
fn main(rt: HostRuntime) -> io::Result<()> {
    let mut input = rt.stdin();
    let mut output = rt.stdout();
    for _ in 0..LISTS {
        if !list(&mut input, &mut output)? {
            break;
        }
    }
    Ok(())
}
