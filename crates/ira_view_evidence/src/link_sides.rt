ghost use Rattle.std.specs.Prelude.{◌≡◌, ◌<◌, IfOk, length};
ghost use Rattle.ira_order.specs.Matching.{got, receipt, sending, sent};
ghost use Rattle.ira_order.specs.Ring.{log_of, next};

use ira_event::{Event, Load, Logs, NodeLog, OutOfMemory};
use ira_order::successor;
use std::alloc::Allocator;

/// What the two nodes of a link recorded of it, each in its own order.
#[derive(Drop)]
pub struct LinkSides<A: Allocator> {
    pub sent: Vec<Load, A>,
    pub received: Vec<Load, A>,
}

impl<A: Allocator + Clone> LinkSides<A> {
    /// The sides of a link of these logs.
    pub fn of_link<L: Allocator>(
        alloc: A,
        logs: &Logs<L>,
        link: u8,
    ) -> Result<LinkSides<A>, OutOfMemory>
        requires { link < length logs.now }
        ensures sent { IfOk result (λ sides. sides.sent.items ≡ sent (log_of logs.now link)) }
        ensures received { IfOk result
            (λ sides. sides.received.items ≡ got (log_of logs.now (next (length logs.now) link))) }
    {
        let reader = successor(logs.size().get(), link);
        Ok(LinkSides {
            sent: loads_sent(alloc.clone()?, logs.log(link))?,
            received: loads_received(alloc, logs.log(reader))?,
        })
    }
}

/// What a log sent.
pub(crate) fn loads_sent<A: Allocator, L: Allocator>(
    alloc: A,
    log: &NodeLog<L>,
) -> Result<Vec<Load, A>, OutOfMemory>
    ensures { IfOk result (λ loads. loads.items ≡ sent log.now.events) }
{
    Ok(log.events().filter_map(load_sent).collect(alloc)?)
}

/// What a log received.
pub(crate) fn loads_received<A: Allocator, L: Allocator>(
    alloc: A,
    log: &NodeLog<L>,
) -> Result<Vec<Load, A>, OutOfMemory>
    ensures { IfOk result (λ loads. loads.items ≡ got log.now.events) }
{
    Ok(log.events().filter_map(load_received).collect(alloc)?)
}

/// What an event sent.
fn load_sent(event: Event) -> Option<Load>
    ensures { result ≡ sending event }
{
    match event {
        Event::Sent(load) => Some(load),
        _ => None,
    }
}

/// What an event received.
fn load_received(event: Event) -> Option<Load>
    ensures { result ≡ receipt event }
{
    match event {
        Event::Got(load) => Some(load),
        _ => None,
    }
}
