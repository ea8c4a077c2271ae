ghost use Rattle.std.specs.Prelude.{◌≡◌};
ghost use Rattle.ira_view.specs.ShownRing.{refusal_fault};
ghost use Rattle.ira_view.specs.declared.ring_fault.RingFault.TheVariants.{Cut};
ghost use Rattle.ira_view.specs.declared.ring_fault.RingFault.TheVariants as fault;

use ira_audit::{Reason, Refusal};
use ira_event::OutOfMemory;
use ira_view_moment::CutFault;
use std::alloc::AllocError;

/// Why there is no such moment of good logs.
#[derive(Clone, Copy)]
pub enum RingFault {
    /// Something stands against the question.
    No(Reason),
    /// The numbers that are asked for are no consistent cut of the logs.
    Cut(CutFault),
    /// The question has no case of the number that is asked for.
    NoCase,
    OutOfMemory,
}

impl From<Refusal> for RingFault {
    ghost from_gives = { λ refusal f. f ≡ refusal_fault refusal };

    fn from(refusal: Refusal) -> RingFault {
        match refusal {
            Refusal::No(reason) => RingFault::No(reason),
            Refusal::OutOfMemory => RingFault::OutOfMemory,
        }
    }
}

impl From<CutFault> for RingFault {
    ghost from_gives = { λ fault f. f ≡ Cut fault };

    fn from(fault: CutFault) -> RingFault {
        RingFault::Cut(fault)
    }
}

impl From<OutOfMemory> for RingFault {
    ghost from_gives = { λ _ f. f ≡ fault.OutOfMemory };

    fn from(_refused: OutOfMemory) -> RingFault {
        RingFault::OutOfMemory
    }
}

impl From<AllocError> for RingFault {
    ghost from_gives = { λ _ f. f ≡ fault.OutOfMemory };

    fn from(_refused: AllocError) -> RingFault {
        RingFault::OutOfMemory
    }
}
