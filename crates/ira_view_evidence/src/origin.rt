ghost use Rattle.std.specs.Prelude.{◌<◌, ◌≤◌, IfOk, MatchBool, length};
ghost use Rattle.ira_order.specs.Ring.{log_of};
ghost use Rattle.ira_view_evidence.specs.Origin.{AreOrigins, IsEventAt, HappenedBefore as Happened};
ghost use Rattle.ira_order.specs.FaultyEvent.{AreFirstFaultyEvents, IsFirstFaultyEvent};
ghost use Rattle.ira_order.specs.declared.faulty_event.FaultyEvent.{FaultyEvent};

use ira_event::OutOfMemory;
use ira_order::{EventAt, FaultyEvent, HappenedBefore};
use std::alloc::Allocator;

/// Where to begin: a first event without a step before which no other such event happened, so that all that happened
/// before it has steps.
#[derive(Clone, Copy, Debug, PartialEq, Eq)]
pub struct Origin {
    pub event: FaultyEvent,
    /// Whether it happened before the one that was named.
    pub happened_before: bool,
}

/// Whether none of the nodes' first faulty events happened before this event.
fn is_least<H: HappenedBefore>(ordered: &H, faulty: &[FaultyEvent], at: EventAt) -> bool
    requires faulty { AreFirstFaultyEvents (H.logs_of ordered.now) faulty.now }
    requires event { IsEventAt (H.logs_of ordered.now) at }
    ensures { MatchBool result
        ((s : FaultyEvent) → IsFirstFaultyEvent (H.logs_of ordered.now) s → ¬ (Happened (H.logs_of ordered.now) s.at at))
        ((s : FaultyEvent) × IsFirstFaultyEvent (H.logs_of ordered.now) s × Happened (H.logs_of ordered.now) s.at at) }
{
    for event in faulty {
        if ordered.before(event.at.place, event.at.position, at.place, at.position) {
            return false;
        }
    }
    true
}

/// Those of the nodes' first faulty events before which none of them happened, in the order of places, each with whether it
/// happened before the named one.
pub fn origins<H: HappenedBefore, A: Allocator>(
    alloc: A,
    ordered: &H,
    faulty: &[FaultyEvent],
    named: FaultyEvent,
) -> Result<Vec<Origin, A>, OutOfMemory>
    requires faulty { AreFirstFaultyEvents (H.logs_of ordered.now) faulty.now }
    requires named { IsFirstFaultyEvent (H.logs_of ordered.now) named }
    ensures { IfOk result
        (λ origins. AreOrigins (H.logs_of ordered.now) named.at origins.items) }
{
    let mut origins = Vec::new(alloc);
    for event in faulty {
        if is_least(ordered, faulty, event.at) {
            let happened_before = ordered.before(
                event.at.place,
                event.at.position,
                named.at.place,
                named.at.position,
            );
            origins.push(Origin {
                event: *event,
                happened_before,
            })?;
        }
    }
    Ok(origins)
}
