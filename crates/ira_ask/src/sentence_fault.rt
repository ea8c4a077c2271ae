ghost use Rattle.std.specs.Prelude.{◌≡◌};
ghost use Rattle.ira_ask.specs.declared.sentence_fault.SentenceFault.TheVariants.{OutOfMemory};

use crate::sentence_part::SentencePart;
use ira_event::OutOfMemory as NoMemory;
use std::alloc::{AllocError, AllocFailed};
use thiserror::Error;

/// Why there is no question for a text that should be a sentence's.
#[derive(Clone, Copy, Debug, PartialEq, Eq, Error)]
pub enum SentenceFault {
    /// The text has more than `MAX_SENTENCE` bytes.
    #[error("too long")]
    TooLong,
    /// No part that may stand after this one, or else at the beginning, follows.
    #[error("no part")]
    NoPart(Option<SentencePart>),
    /// This part's word is followed by no clause, up to a comma and a space or the end.
    #[error("no clause")]
    NoClause(SentencePart),
    /// The word `node` is followed by no place and clause.
    #[error("no place and clause")]
    NoNode,
    /// The ring has no node of that place.
    #[error("no such place")]
    NoPlace,
    /// The clause of a node and that of all nodes are nested too deep together.
    #[error("too deep")]
    TooDeep,
    /// There would be more than `MAX_CASES` cases.
    #[error("too many cases")]
    ManyCases,
    /// The question's text would have more than `MAX_TEXT` bytes.
    #[error("too long a question")]
    LongQuestion,
    #[error("out of memory")]
    OutOfMemory,
}

impl<T: Drop> From<AllocFailed<T>> for SentenceFault {
    ghost from_gives = { λ _ f. f ≡ OutOfMemory };

    fn from(_refused: AllocFailed<T>) -> SentenceFault {
        SentenceFault::OutOfMemory
    }
}

impl From<AllocError> for SentenceFault {
    ghost from_gives = { λ _ f. f ≡ OutOfMemory };

    fn from(_refused: AllocError) -> SentenceFault {
        SentenceFault::OutOfMemory
    }
}

impl From<NoMemory> for SentenceFault {
    ghost from_gives = { λ _ f. f ≡ OutOfMemory };

    fn from(_refused: NoMemory) -> SentenceFault {
        SentenceFault::OutOfMemory
    }
}
