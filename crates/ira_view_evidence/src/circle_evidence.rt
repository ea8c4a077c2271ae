ghost use Rattle.std.specs.Prelude.{◌≡◌, ◌<◌, ℕ, IfOk, MatchOption, length, take};
ghost use Rattle.ira_order.specs.Circle.{HasOrder};
ghost use Rattle.ira_order.specs.Matching.{Matches, got};
ghost use Rattle.ira_order.specs.OrderPrefix.{IsOrderPrefix, tally_at};
ghost use Rattle.ira_order.specs.Ring.{log_of};
ghost use Rattle.ira_view_evidence.specs.CircleEvidence.{IsCircleEvidence, IsStuckAt};
ghost use Rattle.ira_view_evidence.specs.StuckNodes.{AreStuckNodes, IsWaiting};

use crate::exchange::nth_sending;
use crate::stuck_at::StuckAt;
use ira_event::{Event, Logs, OutOfMemory};
use ira_order::{EventAt, OrderPrefix, Tally, predecessor};
use std::alloc::Allocator;

/// Logs that match and have no order: where each node is stuck when as many events as can be are put in order.
#[derive(Drop)]
pub struct CircleEvidence<A: Allocator> {
    /// How many events can be put in order.
    pub ordered: u32,
    /// For each place where its node is stuck.
    pub stuck: Vec<StuckAt, A>,
}

/// The receipt that follows what a node has made, and its sending.
fn stuck_at<A: Allocator>(logs: &Logs<A>, place: u8, tally: Tally) -> StuckAt
    requires place { place < length logs.now }
    requires received { tally.receipts ≡ length (got (take tally.events (log_of logs.now place))) }
    requires waiting { IsWaiting logs.now place tally.events }
    ensures { IsStuckAt logs.now place tally.events result }
{
    let log = logs.log(place);
    let position = tally.events + 1;
    let Event::Got(load) = log.event(position) else {
        unreachable!()
    };
    let writer = predecessor(logs.size().get(), place);
    let Some(sending) = nth_sending(logs, writer, tally.receipts + 1) else {
        unreachable!()
    };
    StuckAt {
        receipt: EventAt { place, position },
        load,
        sending: sending.at,
    }
}

/// Where each node is stuck, and how many events come before.
fn stuck_nodes<A: Allocator>(
    alloc: A,
    logs: &Logs<A>,
    prefix: &OrderPrefix<A>,
) -> Result<CircleEvidence<A>, OutOfMemory>
    requires prefix { IsOrderPrefix logs.now prefix.now }
    requires waiting { (i : ℕ) → i < length logs.now
        → IsWaiting logs.now i (tally_at prefix.now.tallies i).events }
    ensures { IfOk result (λ e. AreStuckNodes logs.now prefix.now.tallies e.ordered e.stuck.items) }
{
    let nodes = logs.size().get();
    let mut ordered = 0;
    let mut stuck = Vec::with_capacity(alloc, usize::from(nodes))?;
    for place in 0..nodes {
        let tally = prefix.tally(place);
        ordered += tally.events;
        stuck.push(stuck_at(logs, place, tally))?;
    }
    Ok(CircleEvidence { ordered, stuck })
}

impl<A: Allocator + Clone> CircleEvidence<A> {
    /// Of logs that match: nothing where they have an order.
    pub fn find(alloc: A, logs: &Logs<A>) -> Result<Option<CircleEvidence<A>>, OutOfMemory>
        requires { Matches logs.now }
        ensures { IfOk result
            (λ found. MatchOption found (HasOrder logs.now) (λ e. IsCircleEvidence logs.now e.ordered e.stuck.items)) }
    {
        let prefix = OrderPrefix::longest(alloc.clone()?, logs)?;
        if prefix.is_whole(logs) {
            return Ok(None);
        }
        Ok(Some(stuck_nodes(alloc, logs, &prefix)?))
    }
}
