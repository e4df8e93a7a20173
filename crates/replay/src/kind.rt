//! The kinds of lists, by the numbers that head them.

pub enum Kind {
    Roots,
    Tolerances,
    StrictMath,
    Systems,
    Surfaces,
    Crossings,
    Steps,
    Jobs,
    Traces,
    Checks,
    Files,
    Other,
}

// Kept (1): a number of no kind has records like those of trace files with no words behind them (`files::Others`); the lists stand in this
// repository, and the program has no answer to another number.
impl From<u64> for Kind {
    fn from(number: u64) -> Kind {
        match number {
            0 => Kind::Roots,
            1 => Kind::Tolerances,
            2 => Kind::StrictMath,
            3 => Kind::Systems,
            4 => Kind::Surfaces,
            5 => Kind::Crossings,
            6 => Kind::Steps,
            7 => Kind::Jobs,
            8 => Kind::Traces,
            9 => Kind::Checks,
            10 => Kind::Files,
            _ => Kind::Other,
        }
    }
}
