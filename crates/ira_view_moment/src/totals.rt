ghost use Rattle.std.specs.Prelude.{◌≡◌};

use crate::moment::Moment;
use std::alloc::Allocator;

/// What the events of all nodes come to at a moment.
#[derive(Clone, Copy, Debug, PartialEq, Eq)]
pub struct Totals {
    pub events: usize,
    /// How many of them are sendings.
    pub sent: usize,
    pub received: usize,
}

impl<A: Allocator> Moment<A> {
    ghost use Rattle.ira_view_moment.specs.Totals.{totals_of};

    /// How many events, sendings and receipts all nodes have made.
    pub fn totals(&self) -> Totals
        ensures { result ≡ totals_of self.now }
    {
        let nodes = self.nodes();
        let mut events = 0usize;
        let mut sent = 0usize;
        let mut received = 0usize;
        for node in nodes {
            events = events.saturating_add(node.events as usize);
            sent = sent.saturating_add(node.sent as usize);
            received = received.saturating_add(node.received as usize);
        }
        Totals {
            events,
            sent,
            received,
        }
    }
}
