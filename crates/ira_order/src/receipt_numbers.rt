ghost use Rattle.std.specs.Prelude.{◌≡◌, ◌≤◌, List, IfOk, length, take};
ghost use Rattle.ira_event.specs.Limits.{MAX_RECORDS};
ghost use Rattle.ira_event.specs.declared.event.Event.{Event};
ghost use Rattle.ira_order.specs.Matching.{got};
ghost use Rattle.ira_order.specs.Stamps.{AreReceipts};

use ira_event::{Event, NodeLog};
use std::alloc::{AllocError, Allocator};

/// The number of each receipt of a log.
pub(crate) fn receipt_numbers<A: Allocator>(
    alloc: A,
    log: &NodeLog<A>,
) -> Result<Vec<u32, A>, AllocError>
    ensures receipts { IfOk result (λ numbers. AreReceipts log.now.events numbers.items) }
    ensures few { IfOk result (λ numbers. length numbers.items ≤ MAX_RECORDS) }
{
    let mut numbers = Vec::with_capacity(alloc, log.len())?;
    let mut number = 0;
    for event in log.events() {
        number += 1;
        if let Event::Got(_) = event {
            numbers.push(number)?;
        }
    }
    Ok(numbers)
}

/// How many messages a node whose receipts have these numbers has received with event `b` of its log.
pub(crate) fn received_by(numbers: &[u32], b: u32) -> usize
    ensures { (events : List Event) → AreReceipts events numbers.now
        → result ≡ length (got (take b events)) }
{
    numbers.partition_point(|number| *number <= b)
}
