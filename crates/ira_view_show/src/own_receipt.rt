ghost use Rattle.std.specs.Prelude.{◌≡◌, MatchOption, slice_get};
ghost use Rattle.ira_view_show.specs.OwnReceipt.{HasNoOwn, IsLastOwn, own_receipt_of};

use ira_event::{Event, Load, Msg, NodeLog};
use ira_node::Phase;
use ira_replay::States;
use std::alloc::Allocator;

/// The receipt of a message with the round and the ID that its node is active with then.
#[derive(Clone, Copy)]
pub(crate) struct OwnReceipt {
    /// The event's number, counted from 1.
    pub(crate) position: u32,
    pub(crate) message: Msg,
}

/// The event after so many of a log, where it is such a receipt of a node in this phase.
fn own_receipt<A: Allocator>(log: &NodeLog<A>, events: u32, phase: Phase) -> Option<OwnReceipt>
    ensures { result ≡ own_receipt_of events (slice_get log.now.events events) phase }
{
    if events as usize >= log.len() {
        return None;
    }
    match (log.event(events + 1), phase) {
        (Event::Got(Load::Msg(message)), Phase::Active { round, id })
            if message.round == round && message.id == id => {
            Some(OwnReceipt {
                position: events + 1,
                message,
            })
        }
        _ => None,
    }
}

/// The last one in a log, if there is one.
pub(crate) fn last_own_receipt<A: Allocator>(log: &NodeLog<A>) -> Option<OwnReceipt>
    ensures { MatchOption result (HasNoOwn log.now) (IsLastOwn log.now) }
{
    let mut last = None;
    for (events, state) in States::new(log.nodes(), log.initiator(), log.events()) {
        last = own_receipt(log, events, state.phase).or(last);
    }
    last
}
