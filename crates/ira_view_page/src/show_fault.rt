ghost use Rattle.std.specs.Prelude.{◌≡◌};
ghost use Rattle.ira_view_page.specs.declared.show_fault.ShowFault.TheVariants.{OutOfMemory, Write};

use ira_event::{OutOfMemory, WriteFault};
use std::alloc::{AllocError, AllocFailed};
use thiserror::Error;

/// Why not all lines of events were written.
#[derive(Clone, Copy, Debug, PartialEq, Eq, Error)]
pub enum ShowFault {
    /// A growth was refused.
    #[error("out of memory")]
    OutOfMemory,
    /// The sink failed.
    #[error("the sink failed")]
    Write,
    /// The columns that were found for the events aren't right.
    #[error("wrong columns")]
    WrongColumns,
}

impl From<OutOfMemory> for ShowFault {
    ghost from_gives = { λ _ f. f ≡ OutOfMemory };

    fn from(_refused: OutOfMemory) -> ShowFault {
        ShowFault::OutOfMemory
    }
}

impl From<AllocError> for ShowFault {
    ghost from_gives = { λ _ f. f ≡ OutOfMemory };

    fn from(_refused: AllocError) -> ShowFault {
        ShowFault::OutOfMemory
    }
}

impl<T: Drop> From<AllocFailed<T>> for ShowFault {
    ghost from_gives = { λ _ f. f ≡ OutOfMemory };

    fn from(_refused: AllocFailed<T>) -> ShowFault {
        ShowFault::OutOfMemory
    }
}

impl From<WriteFault> for ShowFault {
    ghost from_gives = { λ _ f. f ≡ Write };

    fn from(_failed: WriteFault) -> ShowFault {
        ShowFault::Write
    }
}
