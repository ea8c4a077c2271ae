ghost use Rattle.std.specs.Prelude.{◌≡◌, ◌≤◌, length};
ghost use Rattle.ira_pred.specs.AskFault.{ask_fault_words};
ghost use Rattle.ira_pred.specs.declared.ask_fault.AskFault.TheVariants.{OutOfMemory};

use ira_event::FaultWords;
use std::alloc::{AllocError, AllocFailed};
use std::error::Error;
use std::fmt::{self, Display, Formatter, Write};

/// What is wrong with a text that should be a question's. Lines count from 1 in the whole text.
#[derive(Clone, Copy, Debug, PartialEq, Eq)]
pub enum AskFault {
    /// The text has more than `MAX_TEXT` bytes.
    TooLong,
    /// The first two lines aren't version and ring size, or the size is out of range.
    Head,
    /// A line that isn't allowed where it stands, or has no clause after its place.
    Line(u32),
    /// A clause's place isn't in the ring, or not above the one before in its case.
    Place(u32),
    /// The parentheses of a line are nested deeper than `MAX_DEPTH`.
    Depth(u32),
    /// The case that this line ends has no clause.
    Empty(u32),
    /// The question has no case, or one more than `MAX_CASES`.
    Cases,
    /// The text ends before a complete end line.
    Cut,
    /// Bytes follow the end line.
    Trailing,
    /// A growth was refused.
    OutOfMemory,
}

impl AskFault {
    /// What a report says of it.
    pub fn words(self) -> FaultWords
        ensures words { result ≡ ask_fault_words self }
        ensures short { length result.words ≤ 20 }
    {
        match self {
            AskFault::TooLong => FaultWords::new("too long"),
            AskFault::Head => FaultWords::new("head"),
            AskFault::Line(k) => FaultWords::numbered("line", k),
            AskFault::Place(k) => FaultWords::numbered("place", k),
            AskFault::Depth(k) => FaultWords::numbered("depth", k),
            AskFault::Empty(k) => FaultWords::numbered("empty", k),
            AskFault::Cases => FaultWords::new("cases"),
            AskFault::Cut => FaultWords::new("cut"),
            AskFault::Trailing => FaultWords::new("trailing"),
            AskFault::OutOfMemory => FaultWords::new("out of memory"),
        }
    }
}

impl Display for AskFault {
    fn fmt<W: Write>(&self, f: &mut Formatter<W>) -> fmt::Result {
        self.words().fmt(f)
    }
}

impl Error for AskFault {}

impl<T: Drop> From<AllocFailed<T>> for AskFault {
    ghost from_gives = { λ _ f. f ≡ OutOfMemory };

    fn from(_refused: AllocFailed<T>) -> AskFault {
        AskFault::OutOfMemory
    }
}

impl From<AllocError> for AskFault {
    ghost from_gives = { λ _ f. f ≡ OutOfMemory };

    fn from(_refused: AllocError) -> AskFault {
        AskFault::OutOfMemory
    }
}
