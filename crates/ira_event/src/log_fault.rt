ghost use Rattle.std.specs.Prelude.{◌≡◌, ◌≤◌, length};
ghost use Rattle.ira_event.specs.LogFault.{log_fault_words};

use crate::fault_words::FaultWords;
use crate::out_of_memory::OutOfMemory;
use std::error::Error;
use std::fmt::{self, Display, Formatter, Write};

/// What is wrong with a text that should be a log's. Lines count from 1 in the whole text.
#[derive(Clone, Copy, Debug, PartialEq, Eq)]
pub enum LogFault {
    /// The text has more than `MAX_TEXT` bytes.
    TooLong,
    /// The first four lines aren't version, ring size, place and start kind, or a number there is
    /// out of range.
    Head,
    /// A line is neither a record nor the end line.
    Line(u32),
    /// A record has a number outside `1..=MAX_NUMBER`.
    Range(u32),
    /// A line that begins as a record does follows `MAX_RECORDS` records.
    TooMany,
    /// The text ends before a complete end line.
    Cut,
    /// The end line doesn't give the number of records.
    Count,
    /// Bytes follow the end line.
    Trailing,
    /// A growth was refused.
    OutOfMemory,
}

impl LogFault {
    /// What a report says of it.
    pub fn words(self) -> FaultWords
        ensures words { result ≡ log_fault_words self }
        ensures short { length result.words ≤ 20 }
    {
        match self {
            LogFault::TooLong => FaultWords::new("too long"),
            LogFault::Head => FaultWords::new("head"),
            LogFault::Line(k) => FaultWords::numbered("line", k),
            LogFault::Range(k) => FaultWords::numbered("range", k),
            LogFault::TooMany => FaultWords::new("too many records"),
            LogFault::Cut => FaultWords::new("cut"),
            LogFault::Count => FaultWords::new("count"),
            LogFault::Trailing => FaultWords::new("trailing"),
            LogFault::OutOfMemory => FaultWords::new("out of memory"),
        }
    }
}

impl Display for LogFault {
    fn fmt<W: Write>(&self, f: &mut Formatter<W>) -> fmt::Result {
        self.words().fmt(f)
    }
}

impl Error for LogFault {}

impl From<OutOfMemory> for LogFault {
    ghost use Rattle.std.specs.Prelude.{◌≡◌};
    ghost use Rattle.ira_event.specs.declared.log_fault.LogFault.TheVariants.{OutOfMemory};

    ghost from_gives = { λ _ f. f ≡ OutOfMemory };

    fn from(_refused: OutOfMemory) -> LogFault {
        LogFault::OutOfMemory
    }
}
