ghost use Rattle.std.specs.Prelude.{◌≡◌, IfOk};
ghost use Rattle.ira_event.specs.Upgrade.{upgraded};

use crate::limits::MAX_VERSION;
use crate::log_head::LogHead;
use crate::node_log::NodeLog;
use crate::out_of_memory::OutOfMemory;
use crate::packed_events::PackedEvents;
use std::alloc::Allocator;

/// The log in version 2. A log of version 2 is given as it is.
pub fn upgrade<A: Allocator>(alloc: A, log: &NodeLog<A>) -> Result<NodeLog<A>, OutOfMemory>
    ensures { IfOk result (λ l. l ≡ upgraded log.now) }
{
    let mut events = PackedEvents::with_capacity(alloc, log.len())?;
    for event in log.events() {
        events.push(event)?;
    }
    let head = LogHead {
        version: MAX_VERSION,
        ..log.head()
    };
    Ok(NodeLog::of_records(head, events))
}
