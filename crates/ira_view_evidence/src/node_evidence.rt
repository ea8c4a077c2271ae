ghost use Rattle.std.specs.Prelude.{IfOk, MatchOption};
ghost use Rattle.ira_replay.specs.LocalRun.{IsLocalRun};
ghost use Rattle.ira_view_evidence.specs.NodeEvidence.{IsNodeEvidence};

use ira_event::{NodeLog, OutOfMemory};
use ira_node::NodeState;
use ira_replay::{ReplayFault, States, replay};
use std::alloc::Allocator;

/// How many states are kept.
const KEPT: u32 = 5;

/// A log's first event without a step, and the states that lead to it.
#[derive(Drop)]
pub struct NodeEvidence<A: Allocator> {
    pub fault: ReplayFault,
    /// How many events come before the first of the states.
    pub first: u32,
    /// The last five states up to the event, or all where there are fewer: each is one event later than the one before
    /// it, and in the last the event has no step.
    pub states: Vec<NodeState, A>,
}

impl<A: Allocator> NodeEvidence<A> {
    /// Nothing where each event of the log has a step.
    pub fn find(alloc: A, log: &NodeLog<A>) -> Result<Option<NodeEvidence<A>>, OutOfMemory>
        ensures { IfOk result
            (λ found. MatchOption found (IsLocalRun log.now)
            (λ e. IsNodeEvidence log.now e.fault e.first e.states.items)) }
    {
        let Err(fault) = replay(log) else {
            return Ok(None);
        };
        let first = fault.position.saturating_sub(KEPT);
        let mut states = Vec::with_capacity(alloc, KEPT as usize)?;
        for (position, state) in States::new(log.nodes(), log.initiator(), log.events()) {
            if position >= first {
                states.push(state)?;
            }
        }
        Ok(Some(NodeEvidence {
            fault,
            first,
            states,
        }))
    }
}
