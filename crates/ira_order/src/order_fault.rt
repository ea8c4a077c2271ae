ghost use Rattle.std.specs.Prelude.{◌≡◌};
ghost use Rattle.ira_order.specs.declared.order_fault.OrderFault.TheVariants.{Match, OutOfMemory};

use crate::match_fault::MatchFault;
use std::alloc::{AllocError, AllocFailed};
use thiserror::Error;

/// Why no order was given.
#[derive(Clone, Copy, Debug, PartialEq, Eq, Error)]
pub enum OrderFault {
    /// The logs don't match.
    #[error("{0}")]
    Match(MatchFault),
    /// The logs match, but events wait for one another in a circle.
    #[error("circle")]
    Circle,
    /// A growth was refused.
    #[error("out of memory")]
    OutOfMemory,
}

impl From<MatchFault> for OrderFault {
    ghost from_gives = { λ fault f. f ≡ Match fault };

    fn from(fault: MatchFault) -> OrderFault {
        OrderFault::Match(fault)
    }
}

impl<T: Drop> From<AllocFailed<T>> for OrderFault {
    ghost from_gives = { λ _ f. f ≡ OutOfMemory };

    fn from(_refused: AllocFailed<T>) -> OrderFault {
        OrderFault::OutOfMemory
    }
}

impl From<AllocError> for OrderFault {
    ghost from_gives = { λ _ f. f ≡ OutOfMemory };

    fn from(_refused: AllocError) -> OrderFault {
        OrderFault::OutOfMemory
    }
}
