ghost use Rattle.std.specs.Prelude.{◌≡◌, ◌<◌, ◌≤◌, ◌-◌, IfOk, MatchOption, length};
ghost use Rattle.ira_order.specs.Ring.{log_of, prev};
ghost use Rattle.ira_order.specs.Circle.{HasOrder};
ghost use Rattle.ira_order.specs.Matching.{got};
ghost use Rattle.ira_order.specs.Stamps.{receipts_by};
ghost use Rattle.ira_order.specs.DirectDependencies.{IsSending};

use crate::happened_before::HappenedBefore;
use crate::node_dependencies::{NodeDependencies, Sending};
use crate::ring::predecessor;
use ira_event::Logs;
use std::alloc::{AllocError, Allocator};
use std::marker::Model;

/// The direct dependencies of the events of a ring's logs: of each receipt its sending, and of each sending the
/// last receipt before it. What an event knows of a node is found along them when it is asked for (Fowler and
/// Zwaenepoel, Causal Distributed Breakpoints, ICDCS 1990): all news of another node came round the ring with
/// the last receipt, so that one link after the other is gone back, at most as many as there are other nodes.
#[derive(Drop)]
pub struct DirectDependencies<'a, A: Allocator> {
    logs: &'a Logs<A>,
    nodes: Vec<NodeDependencies<A>, A>,
}

impl<'a, A: Allocator> Model for DirectDependencies<'a, A> {
    ghost use Rattle.std.specs.Prelude.{List};
    ghost use Rattle.ira_event.specs.Log.{Log};
    ghost use Rattle.ira_order.specs.Circle.{HasOrder};
    ghost use Rattle.ira_order.specs.DirectDependencies.{AreDirectDependencies};

    ghost Value = { List Log };

    ghost view = { λ a. a.logs.now };

    ghost invariant = { λ a. HasOrder a.logs.now × AreDirectDependencies a.logs.now a.nodes.items };
}

impl<'a, A: Allocator> DirectDependencies<'a, A> {
    /// The direct dependencies of logs that have an order. It goes over each log, and takes two numbers for
    /// each sending and one for each receipt.
    pub fn new(alloc: A, logs: &'a Logs<A>) -> Result<DirectDependencies<'a, A>, AllocError>
    where
        A: Clone,
        requires { HasOrder logs.now }
        ensures { IfOk result (λ dependencies. dependencies ≡ logs.now) }
    {
        let size = logs.size().get();
        let mut nodes = Vec::with_capacity(alloc.clone()?, usize::from(size))?;
        for place in 0..size {
            nodes.push(NodeDependencies::of_log(alloc.clone()?, logs.log(place))?)?;
        }
        Ok(DirectDependencies { logs, nodes })
    }

    /// How many messages node `j` has received with event `b` of its log.
    fn received(&self, j: u8, b: u32) -> usize
        requires { j < length self.now }
        ensures receipts { result ≡ receipts_by self.now j b }
        ensures valid { HasOrder self.now }
    {
        self.nodes[usize::from(j)].received(b)
    }

    /// The node before a node that has received so many messages, and its sending of the last of them; nothing
    /// where there is none.
    fn last_sending(&self, node: u8, received: usize) -> Option<(u8, Sending)>
        requires place { node < length self.now }
        requires receipts { received ≤ length (got (log_of self.now node)) }
        ensures sending { MatchOption result (received ≡ 0)
            (λ last. (0 < received) × (last.0 ≡ prev (length self.now) node)
            × IsSending (log_of self.now last.0) (received - 1) last.1) }
    {
        if received == 0 {
            return None;
        }
        let writer = predecessor(self.logs.size().get(), node);
        Some((writer, self.nodes[usize::from(writer)].sending(received)))
    }
}

impl<'a, A: Allocator> HappenedBefore for DirectDependencies<'a, A> {
    type Alloc = A;

    ghost logs_of = { λ logs. logs };

    fn logs(&self) -> &Logs<A> {
        self.logs
    }

    fn count(&self, j: u8, b: u32, i: u8) -> u32 {
        let mut node = j;
        let mut received = self.received(j, b);
        if i == j {
            return b;
        }
        'back: while let Some((writer, sending)) = self.last_sending(node, received) {
            if writer == i {
                return sending.number;
            }
            node = writer;
            received = sending.received as usize;
        }
        0
    }

    fn write_counts(&self, j: u8, b: u32, counts: &mut [u32]) {
        counts.fill(0);
        let mut node = j;
        let mut received = self.received(j, b);
        'back: while let Some((writer, sending)) = self.last_sending(node, received) {
            if writer == j {
                return;
            }
            counts[usize::from(writer)] = sending.number;
            node = writer;
            received = sending.received as usize;
        }
    }
}
