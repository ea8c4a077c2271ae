ghost use Rattle.std.specs.Prelude.{◌≡◌, IsFalse, IsTrue};
ghost use Rattle.ira_view.specs.Status.{IsElectionStatus, IsFindingsStatus, IsLeadsStatus, answer_status};
ghost use Rattle.ira_view.specs.Status.{status_number};

use ira_audit::{Answer, Findings};
use ira_ring::{NodeEnd, has_leader};
use std::alloc::Allocator;

/// What the program ends with.
#[derive(Clone, Copy)]
pub enum Status {
    /// The answer was yes, a node was elected, or those lead that are to.
    Yes,
    /// The answer was no, no node was elected, or others lead than are to.
    No,
    /// A word, a ring or a file was refused, or a read or a write failed.
    Refused,
    OutOfMemory,
}

impl Status {
    pub fn of_answer(answer: &Answer) -> Status
        ensures { result ≡ answer_status answer.now }
    {
        match answer {
            Answer::Yes => Status::Yes,
            Answer::No(_) => Status::No,
        }
    }

    /// Whether each case is absent.
    pub fn of_findings<A: Allocator + Clone>(findings: &Findings<A>) -> Status
        ensures { IsFindingsStatus findings.now result }
    {
        Status::of_absent(findings.are_absent())
    }

    /// Whether each case is absent, where that is known.
    pub fn of_absent(are_absent: bool) -> Status
        ensures yes { IsTrue are_absent → result ≡ Status.Yes }
        ensures no { IsFalse are_absent → result ≡ Status.No }
    {
        if are_absent { Status::Yes } else { Status::No }
    }

    /// Whether a node leads.
    pub fn of_ends(ends: &[NodeEnd]) -> Status
        ensures { IsElectionStatus ends.now result }
    {
        if has_leader(ends) {
            Status::Yes
        } else {
            Status::No
        }
    }

    /// Whether those lead that are to, by the lines that say where they differ.
    pub fn of_differences(differences: &[u8]) -> Status
        ensures { IsLeadsStatus differences.now result }
    {
        if differences.is_empty() {
            Status::Yes
        } else {
            Status::No
        }
    }

    pub fn number(self) -> u8
        ensures { result ≡ status_number self }
    {
        match self {
            Status::Yes => 0,
            Status::No => 1,
            Status::Refused => 2,
            Status::OutOfMemory => 3,
        }
    }
}
