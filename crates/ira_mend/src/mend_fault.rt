ghost use Rattle.std.specs.Prelude.{◌≡◌};
ghost use Rattle.ira_mend.specs.declared.mend_fault.MendFault.TheVariants.{Match, OutOfMemory};

use ira_event::OutOfMemory;
use ira_order::MatchFault;
use std::alloc::AllocError;
use thiserror::Error;

/// Why logs weren't mended.
#[derive(Clone, Copy, Debug, PartialEq, Eq, Error)]
pub enum MendFault {
    /// A receipt that would be kept is of another message than its sending.
    #[error("{0}")]
    Match(MatchFault),
    /// A growth was refused.
    #[error("out of memory")]
    OutOfMemory,
}

impl From<MatchFault> for MendFault {
    ghost from_gives = { λ fault f. f ≡ Match fault };

    fn from(fault: MatchFault) -> MendFault {
        MendFault::Match(fault)
    }
}

impl From<OutOfMemory> for MendFault {
    ghost from_gives = { λ _ f. f ≡ OutOfMemory };

    fn from(_refused: OutOfMemory) -> MendFault {
        MendFault::OutOfMemory
    }
}

impl From<AllocError> for MendFault {
    ghost from_gives = { λ _ f. f ≡ OutOfMemory };

    fn from(_refused: AllocError) -> MendFault {
        MendFault::OutOfMemory
    }
}
