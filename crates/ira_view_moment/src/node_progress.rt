ghost use Rattle.std.specs.Prelude.{◌≡◌, ◌+◌, ◌^◌, ◌<◌, ◌≤◌, length};
ghost use Rattle.ira_replay.specs.LocalRun.{IsLocalRun};
ghost use Rattle.ira_view_moment.specs.NodeProgress.{IsProgress};

use ira_event::{Event, NodeLog};
use ira_node::NodeState;
use std::alloc::Allocator;

/// How far a node has come: the number of its events, the state after them, and how many of them are of each kind.
#[derive(Clone, Copy, Debug, PartialEq, Eq)]
pub struct NodeProgress {
    pub events: u32,
    pub state: NodeState,
    pub draws: u32,
    pub sent: u32,
    pub received: u32,
    /// How many of the receipts left the node as it was.
    pub dropped: u32,
}

impl NodeProgress {
    /// After so many first events of a log all of whose events have steps.
    pub fn after<A: Allocator>(log: &NodeLog<A>, events: u32) -> NodeProgress
        requires local { IsLocalRun log.now }
        requires within { events ≤ length log.now.events }
        ensures { IsProgress log.now events result }
    {
        let mut progress = NodeProgress::start(log);
        while progress.events < events {
            progress.advance(log);
        }
        progress
    }

    /// Before the first event.
    fn start<A: Allocator>(log: &NodeLog<A>) -> NodeProgress
        ensures { IsProgress log.now 0 result }
    {
        NodeProgress {
            events: 0,
            state: NodeState::first(log.initiator()),
            draws: 0,
            sent: 0,
            received: 0,
            dropped: 0,
        }
    }

    /// Goes on by one event.
    fn advance<A: Allocator>(&mut self, log: &NodeLog<A>)
        requires local { IsLocalRun log.now }
        requires within { self.old.events < length log.now.events }
        requires room { self.old.events + 1 < 2 ^ 32 }
        requires progress { IsProgress log.now self.old.events self.old }
        ensures { IsProgress log.now (self.old.events + 1) self.new }
    {
        let before = self.state;
        self.events += 1;
        let event = log.event(self.events);
        match self.state.advance(log.nodes(), &event) {
            Ok(()) => {}
            Err(_) => unreachable!(),
        }
        match event {
            Event::Draw(_) => self.draws += 1,
            Event::Sent(_) => self.sent += 1,
            Event::Got(_) => {
                self.received += 1;
                if self.state == before {
                    self.dropped += 1;
                }
            }
            Event::Yield => {}
        }
    }
}
