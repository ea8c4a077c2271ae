ghost use Rattle.std.specs.Prelude.{◌≡◌, IfOk, MatchOption, option_map};
ghost use Rattle.ira_commands.specs.RingLeaders.{AreDifferencesOf, AreNoPlaces, AreReasonsOf, named_places};

use ira_audit::GoodLogs;
use ira_event::OutOfMemory;
use ira_view::{differences, explain_differences, missing_leader};
use ira_view_page::{NamedText, Page, PageText};
use std::alloc::{AllocError, Allocator};

/// Who is to lead when the logs of a ring end.
#[derive(Clone, Copy)]
pub enum RingLeaders<'v> {
    /// Nothing is asked of who leads.
    NotAsked,
    /// Some node, whichever.
    Any,
    /// The nodes at these places, and no other; any numbers, and not only places of the ring.
    Places(&'v [u64]),
}

impl<'v> RingLeaders<'v> {
    /// Lines on who leads otherwise than is asked in the end; nothing where one that is named is none of the ring.
    pub(crate) fn differences<A: Allocator + Clone>(
        &self,
        alloc: A,
        logs: &GoodLogs<A>,
    ) -> Result<Option<PageText<A>>, OutOfMemory>
        ensures { IfOk result (λ found.
            MatchOption found (AreNoPlaces logs.now self.now) (AreDifferencesOf logs.now self.now)) }
    {
        match *self {
            RingLeaders::NotAsked => Ok(Some(Page::new(alloc).finish()?)),
            RingLeaders::Any => Ok(Some(missing_leader(alloc, logs)?)),
            RingLeaders::Places(places) => differences(alloc, logs, places),
        }
    }

    /// Why the nodes lead or don't that such lines name, of logs in these files.
    pub(crate) fn reasons<A: Allocator + Clone>(
        &self,
        alloc: A,
        files: &[NamedText<'_>],
        logs: &GoodLogs<A>,
    ) -> Result<PageText<A>, OutOfMemory>
        ensures { IfOk result (AreReasonsOf files.now logs.now self.now) }
    {
        match *self {
            RingLeaders::NotAsked | RingLeaders::Any => Page::new(alloc).finish(),
            RingLeaders::Places(places) => explain_differences(alloc, files, logs, places),
        }
    }

    /// The places of the nodes that are to lead, if some are named.
    pub(crate) fn places<A: Allocator>(&self, alloc: A) -> Result<Option<Vec<u64, A>>, AllocError>
        ensures { IfOk result (λ places. option_map (λ named. named.items) places ≡ named_places self.now) }
    {
        match *self {
            RingLeaders::Places(places) => Ok(Some(places.to_vec(alloc)?)),
            RingLeaders::NotAsked | RingLeaders::Any => Ok(None),
        }
    }
}
