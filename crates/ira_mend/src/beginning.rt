ghost use Rattle.std.specs.Prelude.{◌≡◌, ◌≤◌, length};
ghost use Rattle.ira_mend.specs.Longest.{IsBeginning, IsLongestWith};

use ira_event::{Event, NodeLog};
use std::alloc::Allocator;

/// A beginning of a node's log: how many events it has, and how many of them are receipts and sendings.
#[derive(Clone, Copy)]
pub(crate) struct Beginning {
    pub(crate) events: u32,
    pub(crate) receipts: u32,
    pub(crate) sendings: u32,
}

impl Beginning {
    /// The whole log.
    pub(crate) fn whole<A: Allocator>(log: &NodeLog<A>) -> Beginning
        ensures is { IsBeginning log.now.events result }
        ensures whole { result.events ≡ length log.now.events }
    {
        let mut events = 0;
        let mut receipts = 0;
        let mut sendings = 0;
        for event in log.events() {
            events += 1;
            match event {
                Event::Got(_) => receipts += 1,
                Event::Sent(_) => sendings += 1,
                Event::Draw(_) | Event::Yield => {}
            }
        }
        Beginning {
            events,
            receipts,
            sendings,
        }
    }

    /// The longest beginning that is no longer and has at most so many receipts.
    pub(crate) fn with_receipts<A: Allocator>(self, log: &NodeLog<A>, most: u32) -> Beginning
        requires { IsBeginning log.now.events self }
        ensures is { IsBeginning log.now.events result }
        ensures longest { IsLongestWith log.now.events self.events most result.events }
        ensures few { result.receipts ≤ most }
    {
        let mut kept = self;
        while kept.receipts > most {
            match log.event(kept.events) {
                Event::Got(_) => kept.receipts -= 1,
                Event::Sent(_) => kept.sendings -= 1,
                Event::Draw(_) | Event::Yield => {}
            }
            kept.events -= 1;
        }
        kept
    }
}
