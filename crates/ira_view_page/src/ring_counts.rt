ghost use Rattle.std.specs.Prelude.{◌≡◌};
ghost use Rattle.ira_view_page.specs.Counts.{counts};

use ira_event::Logs;
use std::alloc::Allocator;

/// How many nodes a ring has, and how many events the logs of all of them have.
#[derive(Clone, Copy, Debug, PartialEq, Eq)]
pub struct RingCounts {
    pub nodes: usize,
    pub events: usize,
}

impl RingCounts {
    /// Those of the ring of these logs.
    pub fn of<A: Allocator>(logs: &Logs<A>) -> RingCounts
        ensures { result ≡ counts logs.now }
    {
        RingCounts {
            nodes: usize::from(logs.size().get()),
            events: logs.number_of_events(),
        }
    }
}
