ghost use Rattle.std.specs.Prelude.{◌≡◌, List};
ghost use Rattle.ira_event.specs.Log.{Log};
ghost use Rattle.ira_pred.specs.Case.{Conjunct};
ghost use Rattle.ira_elim.specs.Decided.{IsDecided};
ghost use Rattle.ira_elim.specs.Found.{IsFound};

use crate::cut::Cut;
use crate::decided::Decided;
use ira_cert::{CertStep, Section};
use std::alloc::Allocator;

/// What is found of a case.
#[derive(Drop)]
pub enum Found<A: Allocator> {
    /// No consistent cut meets it; the section shows why.
    Absent(Section<A>),
    /// Some consistent cut meets it; this is the least one.
    Present(Cut<A>),
}

impl<A: Allocator> Found<A> {
    /// What was found, where the steps were kept.
    pub(crate) fn of_decided(decided: Decided<Vec<CertStep, A>, A>) -> Found<A>
        ensures { (logs : List Log) (case : List Conjunct)
            → IsDecided (λ list steps. list.items ≡ steps) logs case decided → IsFound logs case result }
    {
        match decided {
            Decided::Absent { steps, spent } => Found::Absent(Section { steps, spent }),
            Decided::Present(cut) => Found::Present(cut),
        }
    }
}
