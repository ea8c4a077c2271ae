ghost use Rattle.std.specs.Prelude.{◌≡◌, ◌↔◌, ◌<◌, ◌≤◌, ◌*◌, IsTrue, length};
ghost use Rattle.ira_order.specs.Ring.{log_of};
ghost use Rattle.ira_order.specs.Before.{Before};
ghost use Rattle.ira_order.specs.VectorClock.{IsCount, AreCountsOfOthers, receipt_count};
ghost use Rattle.ira_order.specs.Stamps.{AreStamps};
ghost use Rattle.ira_order.specs.Ordered.{IsOrdered};

use crate::happened_before::HappenedBefore;
use crate::stamps::Stamps;
use ira_event::Logs;
use std::alloc::Allocator;
use std::marker::Model;

/// The logs of a ring, one order of all their events, and which events happened before one another.
#[derive(Drop)]
pub struct Ordered<'a, A: Allocator> {
    logs: &'a Logs<A>,
    schedule: Vec<u8, A>,
    stamps: Stamps<A>,
}

impl<'a, A: Allocator> Model for Ordered<'a, A> {
    ghost use Rattle.ira_order.specs.Ordered.{Ordered, IsOrdered};
    ghost use Rattle.ira_order.specs.Stamps.{AreStamps};

    ghost Value = { Ordered };

    ghost view = { λ a. record { logs = a.logs.now; schedule = a.schedule.items } };

    ghost invariant = { λ a. IsOrdered (record { logs = a.logs.now; schedule = a.schedule.items })
        × AreStamps a.logs.now a.stamps.nodes.items };
}

impl<'a, A: Allocator> Ordered<'a, A> {
    /// The logs with a list of places that is known to be an order of them, and their stamps.
    pub(crate) fn of_parts(
        logs: &'a Logs<A>,
        schedule: Vec<u8, A>,
        stamps: Stamps<A>,
    ) -> Ordered<'a, A>
        requires order { IsOrdered (record { logs = logs.now; schedule = schedule.items }) }
        requires stamps { AreStamps logs.now stamps.nodes.items }
        ensures { result ≡ record { logs = logs.now; schedule = schedule.items } }
    {
        Ordered {
            logs,
            schedule,
            stamps,
        }
    }

    /// The logs that are ordered.
    pub fn logs(&self) -> &'a Logs<A>
        ensures { result.now ≡ self.now.logs }
    {
        self.logs
    }

    /// One order of the events, as a list of places: where a place stands for the k-th time, it means
    /// event k of its node. Which order it is, is left open.
    pub fn schedule(&self) -> &[u8]
        ensures value { result.now ≡ self.now.schedule }
        ensures valid { IsOrdered self.now }
    {
        &self.schedule
    }

    /// How many events of node `i` are event `b` of node `j` or happened before it (its vector clock's
    /// entry for node `i`: Mattern, Virtual Time and Global States of Distributed Systems, 1989). Events
    /// count from 1; 0 for `b = 0`. It takes logarithmic time in the receipts of node `j`.
    pub fn count(&self, j: u8, b: u32, i: u8) -> u32
        requires places { (j < length self.now.logs) × (i < length self.now.logs) }
        requires position { b ≤ length (log_of self.now.logs j) }
        ensures count { IsCount self.now.logs j b i result }
        ensures valid { IsOrdered self.now }
    {
        let logs = self.logs;
        if i == j {
            return b;
        }
        self.stamps.counts(logs, j, b)[usize::from(i)]
    }

    /// What `count` says of event `b` of node `j` for each other node, node by node; the entry of node `j`
    /// itself is left open. It lends what is stored, found by one search.
    pub fn counts(&self, j: u8, b: u32) -> &[u32]
        requires place { j < length self.now.logs }
        requires position { b ≤ length (log_of self.now.logs j) }
        ensures counts { AreCountsOfOthers self.now.logs j b result.now }
        ensures valid { IsOrdered self.now }
    {
        let logs = self.logs;
        self.stamps.counts(logs, j, b)
    }

    /// Whether event `a` of node `i` happened before event `b` of node `j`; events count from 1.
    pub fn before(&self, i: u8, a: u32, j: u8, b: u32) -> bool
        requires places { (i < length self.now.logs) × (j < length self.now.logs) }
        requires first { (1 ≤ a) × (a ≤ length (log_of self.now.logs i)) }
        requires second { (1 ≤ b) × (b ≤ length (log_of self.now.logs j)) }
        ensures { IsTrue result ↔ Before self.now.logs i a j b }
    {
        HappenedBefore::before(self, i, a, j, b)
    }

    /// How many counters are kept: as many for each receipt as the ring has nodes.
    pub fn stored(&self) -> usize
        ensures { result ≡ length self.now.logs * receipt_count self.now.logs }
    {
        self.stamps.stored(self.logs)
    }
}

impl<'a, A: Allocator> HappenedBefore for Ordered<'a, A> {
    type Alloc = A;

    ghost logs_of = { λ o. o.logs };

    fn logs(&self) -> &Logs<A> {
        self.logs
    }

    fn count(&self, j: u8, b: u32, i: u8) -> u32 {
        Ordered::count(self, j, b, i)
    }

    fn write_counts(&self, j: u8, b: u32, counts: &mut [u32]) {
        counts.copy_from_slice(self.counts(j, b));
    }
}
