//! Why a call is refused: one enum for every call, and document 01's number for each case.
#![tactic(auto)]

ghost use Rattle.std.specs.Prelude.{◌≡◌};
ghost use Rattle.refusal.specs.Refusal.{alone, of_point, in_round, in_column, numbers_of, number_of};
ghost use Rattle.refusal.specs.Verdict.{asked};

#[derive(Clone, Copy)]
pub enum Refusal {
    // Of a surface: a number of the frame or a size, a wrong size, a window, a turn mark.
    Number,
    Size,
    Window,
    TurnMark,
    // Of a call: the tolerance, a guess or parameter, the step cap, too few numbers lent.
    Tolerance,
    Parameter,
    StepCap,
    Lent,
    // Of a walk: no meeting, with the Newton round; a solve for it that gave up, with its column too; no direction, too few points.
    NoMeeting(u64),
    Singular { round: u64, column: u64 },
    NoDirection,
    TooShort,
    // Of a trace or box handed in; the last four of the trace name the point.
    Claim,
    NotOwnPoint(u64),
    OutsideWindow(u64),
    Gap(u64),
    Chord(u64),
    BoxNumber,
    Coordinate,
    // Of a job file, of a trace file or of a trace to be written to one.
    JobFile,
    TraceFile,
}

// A refusal's number, and what some add to it: the index of a point, a Newton round, the column of a solve. 0 where it adds none.
#[derive(Clone, Copy)]
pub struct Numbers {
    pub number: u64,
    pub index: u64,
    pub round: u64,
    pub column: u64,
}

// A refusal that is its number alone.
fn alone(number: u64) -> Numbers
    ensures { result ≡ alone number }
{
    Numbers {
        number,
        index: 0,
        round: 0,
        column: 0,
    }
}

// One that names a point of the trace.
fn of_point(number: u64, index: u64) -> Numbers
    ensures { result ≡ of_point number index }
{
    Numbers {
        index,
        ..alone(number)
    }
}

// One of a meeting that failed in a round of Newton's method.
fn in_round(number: u64, round: u64) -> Numbers
    ensures { result ≡ in_round number round }
{
    Numbers {
        round,
        ..alone(number)
    }
}

// One of a solve that gave up at a column, in such a round.
fn in_column(number: u64, round: u64, column: u64) -> Numbers
    ensures { result ≡ in_column number round column }
{
    Numbers {
        column,
        ..in_round(number, round)
    }
}

// One test: refused where it fails. Tests in an order are such calls, each with a `?`.
pub fn asked(test: bool, refusal: Refusal) -> Result<(), Refusal>
    ensures { result ≡ asked test refusal }
{
    if test { Ok(()) } else { Err(refusal) }
}

impl Refusal {
    // Document 01's number, and what it adds.
    pub fn numbers(self) -> Numbers
        ensures { result ≡ numbers_of self }
    {
        match self {
            Refusal::Number => alone(1),
            Refusal::Size => alone(2),
            Refusal::Window => alone(3),
            Refusal::TurnMark => alone(4),
            Refusal::Tolerance => alone(5),
            Refusal::Parameter => alone(6),
            Refusal::StepCap => alone(7),
            Refusal::Lent => alone(8),
            Refusal::NoMeeting(i) => in_round(9, i),
            Refusal::Singular { round, column } => in_column(21, round, column),
            Refusal::NoDirection => alone(10),
            Refusal::TooShort => alone(11),
            Refusal::Claim => alone(12),
            Refusal::NotOwnPoint(i) => of_point(13, i),
            Refusal::OutsideWindow(i) => of_point(14, i),
            Refusal::Gap(i) => of_point(15, i),
            Refusal::Chord(i) => of_point(16, i),
            Refusal::BoxNumber => alone(17),
            Refusal::Coordinate => alone(18),
            Refusal::JobFile => alone(19),
            Refusal::TraceFile => alone(20),
        }
    }

    // The number alone.
    pub fn number(self) -> u64
        ensures { result ≡ number_of self }
    {
        self.numbers().number
    }
}
