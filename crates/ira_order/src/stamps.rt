ghost use Rattle.std.specs.Prelude.{◌≡◌, ◌*◌, ◌<◌, ◌≤◌, [], IfOk, OnOk, length};
ghost use Rattle.ira_order.specs.Ring.{log_of};
ghost use Rattle.ira_order.specs.Ordered.{IsOrdered};
ghost use Rattle.ira_order.specs.VectorClock.{AreCountsOfOthers, receipt_count};
ghost use Rattle.ira_order.specs.OrderPrefix.{IsOrderPrefix};
ghost use Rattle.ira_order.specs.Stamps.{AreUnstamped, IsTable, AreStamps, IsStamping, IsStamp, counters_at};

use crate::node_stamps::NodeStamps;
use crate::ring::successor;
use crate::tally::{Tally, first_tallies};
use ira_event::{Event, Logs, MAX_NODES};
use std::alloc::{AllocError, Allocator};

/// A stamp for each receipt: for each node the number of its events that happened up to the receipt's
/// sending (a vector clock: Mattern, Virtual Time and Global States of Distributed Systems, 1989). What
/// an event that is no receipt knows of other nodes came with the last receipt before it, so it needs
/// no stamp. A node's receipts are stamped in their order, as links are first in, first out.
#[derive(Drop)]
pub(crate) struct Stamps<A: Allocator> {
    nodes: Vec<NodeStamps<A>, A>,
}

impl<A: Allocator> Stamps<A> {
    /// The stamps of logs that have this order.
    pub(crate) fn of_order(
        alloc: A,
        logs: &Logs<A>,
        schedule: &[u8],
    ) -> Result<Stamps<A>, AllocError>
    where
        A: Clone,
        requires { IsOrdered (record { logs = logs.now; schedule = schedule.now }) }
        ensures { IfOk result (λ s. AreStamps logs.now s.nodes.items) }
    {
        let tallies = first_tallies(alloc.clone()?, logs)?;
        let mut stamps = Stamps::start(alloc, logs)?;
        stamps.fill(logs, schedule, tallies)?;
        Ok(stamps)
    }

    /// No stamp so far.
    fn start(alloc: A, logs: &Logs<A>) -> Result<Stamps<A>, AllocError>
    where
        A: Clone,
        ensures { IfOk result (λ s. AreUnstamped logs.now s.nodes.items) }
    {
        let size = logs.size().get();
        let mut nodes = Vec::with_capacity(alloc.clone()?, usize::from(size))?;
        for place in 0..size {
            nodes.push(NodeStamps::start(alloc.clone()?, logs.log(place))?)?;
        }
        Ok(Stamps { nodes })
    }

    /// Goes along the order, and stamps each receipt where the order has its sending.
    fn fill(
        &mut self,
        logs: &Logs<A>,
        schedule: &[u8],
        mut tallies: Vec<Tally, A>,
    ) -> Result<(), AllocError>
        requires unstamped { AreUnstamped logs.now self.old.nodes.items }
        requires ordered { IsOrdered (record { logs = logs.now; schedule = schedule.now }) }
        requires start { IsOrderPrefix logs.now (record { places = []; tallies = tallies.items }) }
        ensures { OnOk result (AreStamps logs.now self.new.nodes.items) }
    {
        let mut row = [0; MAX_NODES];
        for place in schedule {
            let i = *place;
            let node = usize::from(i);
            let mut tally = tallies[node];
            let number = tally.events + 1;
            let event = logs.log(i).event(number);
            if let Event::Sent(_) = event {
                let received = tally.receipts as usize;
                let sent = tally.sendings as usize;
                self.stamp(logs, &mut row, i, number, received, sent)?;
            }
            tally.add(event);
            tallies[node] = tally;
        }
        Ok(())
    }

    /// Stamps the receipt of the message that node `k` sends with its event `a`, if the next node has
    /// it: node `k` has received `received` messages by then and sent `sent` before. The row is room
    /// for one stamp, whatever it holds.
    fn stamp(
        &mut self,
        logs: &Logs<A>,
        row: &mut [u32; MAX_NODES],
        k: u8,
        a: u32,
        received: usize,
        sent: usize,
    ) -> Result<(), AllocError>
        requires table { IsTable logs.now self.old.nodes.items }
        requires place { k < length logs.now }
        requires received { received * length logs.now ≤ length (counters_at self.old.nodes.items k) }
        ensures { OnOk result (IsStamping logs.now self.old.nodes.items self.new.nodes.items k received sent a) }
    {
        let nodes = logs.size().get();
        let reader = usize::from(successor(nodes, k));
        if sent >= self.nodes[reader].receipts() {
            return Ok(());
        }
        self.write_stamp(logs, row, k, a, received);
        self.nodes[reader].add(&row[..usize::from(nodes)])
    }

    /// Writes to the row what node `k` knows with its event `a`, where it has received `received`
    /// messages.
    fn write_stamp(
        &self,
        logs: &Logs<A>,
        row: &mut [u32; MAX_NODES],
        k: u8,
        a: u32,
        received: usize,
    )
        requires table { IsTable logs.now self.now.nodes.items }
        requires place { k < length logs.now }
        requires received { received * length logs.now ≤ length (counters_at self.now.nodes.items k) }
        ensures { IsStamp logs.now self.now.nodes.items k received a row.new }
    {
        let nodes = usize::from(logs.size().get());
        let node = usize::from(k);
        row[..nodes].copy_from_slice(self.nodes[node].row(nodes, received));
        row[node] = a;
    }

    /// How many events of each other node happened up to event `b` of node `j`: the stamp of its last
    /// receipt up to there, and all 0 where it has none. The entry of node `j` itself is left open.
    pub(crate) fn counts(&self, logs: &Logs<A>, j: u8, b: u32) -> &[u32]
        requires stamps { AreStamps logs.now self.now.nodes.items }
        requires place { j < length logs.now }
        requires position { b ≤ length (log_of logs.now j) }
        ensures { AreCountsOfOthers logs.now j b result.now }
    {
        let node = &self.nodes[usize::from(j)];
        node.row(usize::from(logs.size().get()), node.received(b))
    }

    /// How many counters are kept.
    pub(crate) fn stored(&self, logs: &Logs<A>) -> usize
        requires { AreStamps logs.now self.now.nodes.items }
        ensures { result ≡ length logs.now * receipt_count logs.now }
    {
        let mut counters = 0;
        for place in 0..logs.size().get() {
            counters += self.nodes[usize::from(place)].stored();
        }
        counters
    }
}
