ghost use Rattle.std.specs.Prelude.{◌≡◌, ◌<◌, ◌≤◌, [], IfOk};
ghost use Rattle.ira_event.specs.Limits.{MAX_RECORDS};
ghost use Rattle.ira_order.specs.OrderPrefix.{IsOrderPrefix};
ghost use Rattle.ira_order.specs.Tally.{tallied};

use ira_event::{Event, Logs};
use std::alloc::{AllocError, Allocator};

/// How far a node has come: how many events it has made, and how many of them are sendings and receipts.
#[derive(Clone, Copy, Debug, PartialEq, Eq)]
pub struct Tally {
    pub events: u32,
    pub sendings: u32,
    pub receipts: u32,
}

/// The tallies of a ring's nodes before the first event.
pub(crate) fn first_tallies<A: Allocator>(
    alloc: A,
    logs: &Logs<A>,
) -> Result<Vec<Tally, A>, AllocError>
    ensures { IfOk result
        (λ tallies. IsOrderPrefix logs.now (record { places = []; tallies = tallies.items })) }
{
    let first = Tally {
        events: 0,
        sendings: 0,
        receipts: 0,
    };
    vec![in alloc; first; usize::from(logs.size().get())]
}

impl Tally {
    /// Adds an event.
    pub(crate) fn add(&mut self, event: Event)
        requires events { self.old.events < MAX_RECORDS }
        requires sendings { self.old.sendings ≤ self.old.events }
        requires receipts { self.old.receipts ≤ self.old.events }
        ensures { self.new ≡ tallied self.old event }
    {
        self.events += 1;
        match event {
            Event::Got(_) => self.receipts += 1,
            Event::Sent(_) => self.sendings += 1,
            Event::Draw(_) | Event::Yield => {}
        }
    }
}
