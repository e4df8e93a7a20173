//! The turn marks of a surface.
ghost use Rattle.job.specs.Marks.{Decodes};

use refusal::Refusal;

// Whether u is marked, and v.
#[derive(Clone, Copy, PartialEq, Eq)]
pub struct Marks {
    pub u: bool,
    pub v: bool,
}

// 1 for u and 2 for v, added; anything above is refused by 19.
impl TryFrom<u64> for Marks {
    type Error = Refusal;

    ghost try_from_gives = { Decodes };

    fn try_from(number: u64) -> Result<Marks, Refusal> {
        match number {
            0 => Ok(Marks { u: false, v: false }),
            1 => Ok(Marks { u: true, v: false }),
            2 => Ok(Marks { u: false, v: true }),
            3 => Ok(Marks { u: true, v: true }),
            _ => Err(Refusal::JobFile),
        }
    }
}
