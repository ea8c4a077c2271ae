ghost use Rattle.std.specs.Prelude.{◌≡◌};
ghost use Rattle.ira_view_picture.specs.declared.draw_fault.DrawFault.TheVariants as fault;
ghost use Rattle.ira_view_picture.specs.DrawFault.{no_columns};

use ira_event::OutOfMemory;
use ira_view_trail::ColumnsFault;
use std::alloc::AllocError;
use thiserror::Error;

/// Why there is no picture.
#[derive(Clone, Copy, Debug, PartialEq, Eq, Error)]
pub enum DrawFault {
    #[error("{events} events are too many for one picture, which holds 20000: give --from and --to")]
    TooManyEvents { events: u32 },
    /// Those that were found aren't right.
    #[error("wrong columns")]
    WrongColumns,
    #[error("out of memory")]
    OutOfMemory,
}

impl From<OutOfMemory> for DrawFault {
    ghost from_gives = { λ _ f. f ≡ fault.OutOfMemory };

    fn from(_refused: OutOfMemory) -> DrawFault {
        DrawFault::OutOfMemory
    }
}

impl From<AllocError> for DrawFault {
    ghost from_gives = { λ _ f. f ≡ fault.OutOfMemory };

    fn from(_refused: AllocError) -> DrawFault {
        DrawFault::OutOfMemory
    }
}

impl From<ColumnsFault> for DrawFault {
    ghost from_gives = { λ f d. d ≡ no_columns f };

    fn from(fault: ColumnsFault) -> DrawFault {
        match fault {
            ColumnsFault::Wrong => DrawFault::WrongColumns,
            ColumnsFault::OutOfMemory => DrawFault::OutOfMemory,
        }
    }
}
