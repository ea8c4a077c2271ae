ghost use Rattle.std.specs.Prelude.{◌≡◌};
ghost use Rattle.ira_ring_setup.specs.RunFault.{run_fault_number};
ghost use Rattle.ira_ring_setup.specs.declared.run_fault.RunFault.TheVariants.{OutOfMemory};

use ira_event::OutOfMemory;
use std::alloc::{AllocError, AllocFailed};
use thiserror::Error;

/// Why no run was given.
#[derive(Clone, Copy, Debug, PartialEq, Eq, Error)]
pub enum RunFault {
    /// The setup has a list that isn't as long as the ring has nodes, no initiator, a draw outside
    /// `1..=N`, a limit on records outside `1..=MAX_RECORDS`, or terms outside `1..=MAX_NUMBER`.
    #[error("setup")]
    Setup,
    /// A growth was refused.
    #[error("out of memory")]
    OutOfMemory,
    /// A thread wasn't started.
    #[error("thread")]
    Thread,
    /// A node's part is missing, or no node ended by itself.
    #[error("no end")]
    NoEnd,
    /// A part is for no place of the ring, or its log for another ring or place, or of another version than
    /// the parts taken before.
    #[error("stranger")]
    Stranger,
    /// A place has two parts.
    #[error("double")]
    Double,
    /// A link was closed before its node had ended.
    #[error("closed")]
    Closed,
}

impl RunFault {
    /// The fault's number, from 1.
    pub fn number(&self) -> u8
        ensures { result ≡ run_fault_number self.now }
    {
        match self {
            RunFault::Setup => 1,
            RunFault::OutOfMemory => 2,
            RunFault::Thread => 3,
            RunFault::NoEnd => 4,
            RunFault::Stranger => 5,
            RunFault::Double => 6,
            RunFault::Closed => 7,
        }
    }
}

impl From<OutOfMemory> for RunFault {
    ghost from_gives = { λ _ f. f ≡ OutOfMemory };

    fn from(_refused: OutOfMemory) -> RunFault {
        RunFault::OutOfMemory
    }
}

impl<T: Drop> From<AllocFailed<T>> for RunFault {
    ghost from_gives = { λ _ f. f ≡ OutOfMemory };

    fn from(_refused: AllocFailed<T>) -> RunFault {
        RunFault::OutOfMemory
    }
}

impl From<AllocError> for RunFault {
    ghost from_gives = { λ _ f. f ≡ OutOfMemory };

    fn from(_refused: AllocError) -> RunFault {
        RunFault::OutOfMemory
    }
}
