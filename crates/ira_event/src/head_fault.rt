ghost use Rattle.std.specs.Prelude.{◌≡◌, ◌≤◌, length};
ghost use Rattle.ira_event.specs.HeadFault.{head_fault_words};

use crate::fault_words::FaultWords;
use std::error::Error;
use std::fmt::{self, Display, Formatter, Write};

/// Why logs aren't the logs of one ring, each at its place. Numbers count the logs from 0.
#[derive(Clone, Copy, Debug, PartialEq, Eq)]
pub enum HeadFault {
    /// There is no log, or not as many as log 0 names nodes.
    Number,
    /// The first log that names another ring size than log 0.
    Size(u8),
    /// The first log that names another place than its own number.
    Place(u8),
    /// The first log whose version is another one than log 0's.
    Version(u8),
}

impl HeadFault {
    /// What a report says of it.
    pub fn words(self) -> FaultWords
        ensures words { result ≡ head_fault_words self }
        ensures short { length result.words ≤ 20 }
    {
        match self {
            HeadFault::Number => FaultWords::new("number"),
            HeadFault::Size(i) => FaultWords::numbered("size", u32::from(i)),
            HeadFault::Place(i) => FaultWords::numbered("place", u32::from(i)),
            HeadFault::Version(i) => FaultWords::numbered("version", u32::from(i)),
        }
    }
}

impl Display for HeadFault {
    fn fmt<W: Write>(&self, f: &mut Formatter<W>) -> fmt::Result {
        self.words().fmt(f)
    }
}

impl Error for HeadFault {}
