ghost use Rattle.std.specs.Prelude.{◌≡◌};
ghost use Rattle.trace_file.specs.File.{claim_fits};
ghost use Rattle.trace_file.specs.Head.{head_where};

use groups::{Claim, Closing};
use refusal::Refusal;

// What a file's head says of its trace, in both directions: only what 20 lets through.
#[derive(Clone, Copy)]
pub(crate) struct Head {
    pub(crate) count: u16,
    pub(crate) start: u16,
    pub(crate) closing: Closing,
}

// The head of a claim, or 20.
impl TryFrom<Claim> for Head {
    type Error = Refusal;

    ghost try_from_gives = { λ claim head. head ≡ head_where (claim_fits claim.count claim.start claim.code) claim.count claim.start claim.code };

    fn try_from(claim: Claim) -> Result<Head, Refusal> {
        let Some(closing) = claim.closing() else {
            return Err(Refusal::TraceFile);
        };
        Ok(Head {
            count: claim.count as u16,
            start: claim.start as u16,
            closing,
        })
    }
}
