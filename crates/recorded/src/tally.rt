//! What a replay counts, and the text that says it.
ghost use Rattle.std.specs.Prelude.{◌≡◌, None, Some};
ghost use Rattle.recorded.specs.Tally.{counted_of, said_of};

use std::fmt;

// How many records were compared, how many of them differ, and which was the first that did (from 0), if any.
#[derive(Clone, Copy, Default)]
pub struct Tally {
    pub compared: u64,
    pub differ: u64,
    pub first: Option<u64>,
}

impl Tally {
    // Nothing compared yet.
    pub fn new() -> Tally
        ensures { result ≡ record { compared = 0; differ = 0; first = None } }
    {
        Tally::default()
    }

    // One record more, whose answer was the recorded one or not.
    pub fn counted(self, same: bool) -> Tally
        ensures { result ≡ counted_of self same }
    {
        let compared = self.compared.wrapping_add(1);
        if same {
            return Tally { compared, ..self };
        }
        Tally {
            compared,
            differ: self.differ.wrapping_add(1),
            first: self.first.or(Some(self.compared)),
        }
    }
}

// How many were compared, how many differ, and the first that does.
impl fmt::Display for Tally {
    ghost output = { λ t. Some (said_of t) };

    fn fmt<W: fmt::Write>(&self, f: &mut fmt::Formatter<W>) -> fmt::Result {
        let Tally {
            compared,
            differ,
            first,
        } = *self;
        write!(f, "{compared} compared, {differ} differ")?;
        match first {
            None => Ok(()),
            Some(first) => write!(f, ", the first at {first}"),
        }
    }
}
