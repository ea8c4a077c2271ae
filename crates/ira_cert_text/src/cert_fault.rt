ghost use Rattle.std.specs.Prelude.{◌≡◌, ◌≤◌, length};
ghost use Rattle.ira_cert_text.specs.CertFault.{cert_fault_words};
ghost use Rattle.ira_cert_text.specs.declared.cert_fault.CertFault.TheVariants.{OutOfMemory};

use ira_event::FaultWords;
use std::alloc::{AllocError, AllocFailed};
use thiserror::Error;

/// What is wrong with a text that should be a certificate's. Lines count from 1 in the whole text.
#[derive(Clone, Copy, Debug, PartialEq, Eq, Error)]
#[error("{}", self.words())]
pub enum CertFault {
    /// The text has more than `MAX_TEXT` bytes.
    TooLong,
    /// The first two lines aren't version and ring size, or the size is out of range.
    Head,
    /// A line isn't spelled as one that is allowed where it stands: outside a section `section` and
    /// `end` are, inside one steps and the spent node are.
    Line(u32),
    /// A line names a node outside the ring, or a position past `MAX_RECORDS`.
    Range(u32),
    /// A section follows `MAX_SECTIONS` sections, or a line that begins as a step does follows
    /// `MAX_STEPS` steps of its section.
    TooMany,
    /// The text ends before a complete end line.
    Cut,
    /// Bytes follow the end line.
    Trailing,
    /// A growth was refused.
    OutOfMemory,
}

impl CertFault {
    /// What a report says of it.
    pub fn words(self) -> FaultWords
        ensures words { result ≡ cert_fault_words self }
        ensures short { length result.words ≤ 20 }
    {
        match self {
            CertFault::TooLong => FaultWords::new("too long"),
            CertFault::Head => FaultWords::new("head"),
            CertFault::Line(k) => FaultWords::numbered("line", k),
            CertFault::Range(k) => FaultWords::numbered("range", k),
            CertFault::TooMany => FaultWords::new("too many"),
            CertFault::Cut => FaultWords::new("cut"),
            CertFault::Trailing => FaultWords::new("trailing"),
            CertFault::OutOfMemory => FaultWords::new("out of memory"),
        }
    }
}

impl<T: Drop> From<AllocFailed<T>> for CertFault {
    ghost from_gives = { λ _ f. f ≡ OutOfMemory };

    fn from(_refused: AllocFailed<T>) -> CertFault {
        CertFault::OutOfMemory
    }
}

impl From<AllocError> for CertFault {
    ghost from_gives = { λ _ f. f ≡ OutOfMemory };

    fn from(_refused: AllocError) -> CertFault {
        CertFault::OutOfMemory
    }
}
