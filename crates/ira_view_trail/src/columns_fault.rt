ghost use Rattle.std.specs.Prelude.{◌≡◌};
ghost use Rattle.ira_view_trail.specs.declared.columns_fault.ColumnsFault.TheVariants as fault;

use ira_event::OutOfMemory;
use std::alloc::AllocError;
use thiserror::Error;

/// Why there are no columns.
#[derive(Clone, Copy, Debug, PartialEq, Eq, Error)]
pub enum ColumnsFault {
    /// Those that were found aren't right, which is a fault of this code.
    #[error("wrong columns")]
    Wrong,
    #[error("out of memory")]
    OutOfMemory,
}

impl From<OutOfMemory> for ColumnsFault {
    ghost from_gives = { λ _ f. f ≡ fault.OutOfMemory };

    fn from(_refused: OutOfMemory) -> ColumnsFault {
        ColumnsFault::OutOfMemory
    }
}

impl From<AllocError> for ColumnsFault {
    ghost from_gives = { λ _ f. f ≡ fault.OutOfMemory };

    fn from(_refused: AllocError) -> ColumnsFault {
        ColumnsFault::OutOfMemory
    }
}
