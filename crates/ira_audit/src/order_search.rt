ghost use Rattle.ira_event.specs.Logs.{AreLogs};
ghost use Rattle.ira_order.specs.FaultyEvent.{AreFirstFaultyEvents};
ghost use Rattle.ira_audit.specs.ReplayedLogs.{IsSearched};

use ira_event::Logs;
use ira_order::{FaultyEvent, OrderFault, find_order, match_links};
use std::alloc::Allocator;

/// Whether the logs of a ring, of which these are the first events without a step, match and have an order. Where all
/// events have steps they have one if they match, so an order is looked for only where an event has none.
pub(crate) fn search_order<A: Allocator + Clone>(
    alloc: A,
    logs: &Logs<A>,
    faulty_events: &[FaultyEvent],
) -> Result<(), OrderFault>
    requires ring { AreLogs logs.now }
    requires faulty { AreFirstFaultyEvents logs.now faulty_events.now }
    ensures { IsSearched logs.now result }
{
    match faulty_events.first() {
        None => match_links(logs)?,
        Some(_) => {
            find_order(alloc, logs)?;
        }
    }
    Ok(())
}
