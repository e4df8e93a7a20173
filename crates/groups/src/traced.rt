ghost use Rattle.std.specs.Prelude.{◌≡◌};
ghost use Rattle.groups.specs.Traced.{code_of, Decodes, closing_in, claim_of};

use crate::count_fits;

// How a line ends: open, or come round to its start in its forward or in its backward half.
#[derive(Clone, Copy)]
pub enum Closing {
    Open,
    Forward,
    Backward,
}

impl Closing {
    // The closing code.
    pub fn code(self) -> usize
        ensures { result ≡ code_of self }
    {
        match self {
            Closing::Open => 0,
            Closing::Forward => 1,
            Closing::Backward => 2,
        }
    }
}

// A number that is no closing's code.
#[derive(Clone, Copy, PartialEq, Eq)]
pub struct UnknownCode;

impl TryFrom<usize> for Closing {
    type Error = UnknownCode;

    ghost try_from_gives = { Decodes };

    fn try_from(code: usize) -> Result<Closing, UnknownCode> {
        match code {
            0 => Ok(Closing::Open),
            1 => Ok(Closing::Forward),
            2 => Ok(Closing::Backward),
            _ => Err(UnknownCode),
        }
    }
}

// What is answered of a trace, by the walk or by a file's reader: how many points it has, which of them is the start, and its closing.
#[derive(Clone, Copy)]
pub struct Traced {
    pub count: usize,
    pub start: usize,
    pub closing: Closing,
}

// What is claimed of a trace handed in: how many points it has, which of them is the start, and its closing code.
// Kept (1): they may be any numbers, and 12 and 20 refuse what no trace has.
#[derive(Clone, Copy)]
pub struct Claim {
    pub count: usize,
    pub start: usize,
    pub code: usize,
}

impl Claim {
    // What 12 and 20 ask alike: the closing that is claimed, where the count is a trace's, the start is one of its points and the code a
    // closing's.
    pub fn closing(self) -> Option<Closing>
        ensures { result ≡ closing_in self }
    {
        if !count_fits(self.count) {
            return None;
        }
        if self.count <= self.start {
            return None;
        }
        Closing::try_from(self.code).ok()
    }
}

// A trace's own.
impl From<Traced> for Claim {
    ghost from_gives = { λ line claim. claim ≡ claim_of line };

    fn from(line: Traced) -> Claim {
        Claim {
            count: line.count,
            start: line.start,
            code: line.closing.code(),
        }
    }
}
