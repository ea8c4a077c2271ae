ghost use Rattle.std.specs.Prelude.{◌≡◌, ◌↔◌, ◌<◌, ◌≤◌, List, IsTrue, length};
ghost use Rattle.ira_event.specs.Log.{Log};
ghost use Rattle.ira_order.specs.Ring.{log_of};
ghost use Rattle.ira_order.specs.Circle.{HasOrder};
ghost use Rattle.ira_order.specs.Before.{Before};
ghost use Rattle.ira_order.specs.VectorClock.{IsCount, AreCountsOfOthers};

use ira_event::Logs;
use std::alloc::Allocator;

/// What tells of logs that have an order which of their events happened before one another.
pub trait HappenedBefore {
    /// What the logs' memory is taken from.
    type Alloc: Allocator;

    // the logs
    ghost logs_of: { Self → List Log };

    /// The logs that it tells of.
    fn logs(&self) -> &Logs<Self::Alloc>
        ensures { result.now ≡ logs_of self.now };

    /// How many events of node `i` are event `b` of node `j` or happened before it (its vector clock's
    /// entry for node `i`: Mattern, Virtual Time and Global States of Distributed Systems, 1989). Events
    /// count from 1; 0 for `b = 0`.
    fn count(&self, j: u8, b: u32, i: u8) -> u32
        requires places { (j < length (logs_of self.now)) × (i < length (logs_of self.now)) }
        requires position { b ≤ length (log_of (logs_of self.now) j) }
        ensures count { IsCount (logs_of self.now) j b i result }
        ensures valid { HasOrder (logs_of self.now) };

    /// Writes what `count` says of event `b` of node `j` for each other node, node by node; the entry of
    /// node `j` itself is left open.
    fn write_counts(&self, j: u8, b: u32, counts: &mut [u32])
        requires place { j < length (logs_of self.now) }
        requires position { b ≤ length (log_of (logs_of self.now) j) }
        requires room { length counts.old ≡ length (logs_of self.now) }
        ensures counts { AreCountsOfOthers (logs_of self.now) j b counts.new }
        ensures valid { HasOrder (logs_of self.now) };

    /// Whether event `a` of node `i` happened before event `b` of node `j`; events count from 1.
    fn before(&self, i: u8, a: u32, j: u8, b: u32) -> bool
        requires places { (i < length (logs_of self.now)) × (j < length (logs_of self.now)) }
        requires first { (1 ≤ a) × (a ≤ length (log_of (logs_of self.now) i)) }
        requires second { (1 ≤ b) × (b ≤ length (log_of (logs_of self.now) j)) }
        ensures { IsTrue result ↔ Before (logs_of self.now) i a j b }
    {
        let count = self.count(j, b, i);
        a <= count && (i != j || a != b)
    }
}
