ghost use Rattle.std.specs.Prelude.{◌≡◌, ◌≢◌, ◌↔◌, Err, IfOk};
ghost use Rattle.ira_order.specs.declared.match_fault.MatchFault.{MatchFault};
ghost use Rattle.ira_order.specs.declared.order_fault.OrderFault.TheVariants.{Match, Circle, OutOfMemory};
ghost use Rattle.ira_order.specs.MatchFault.{IsMatchFault};
ghost use Rattle.ira_order.specs.Circle.{HasCircle};
ghost use Rattle.ira_order.specs.Ordered.{IsOrdered};

use crate::links::match_links;
use crate::order_fault::OrderFault;
use crate::order_prefix::OrderPrefix;
use crate::ordered::Ordered;
use crate::stamps::Stamps;
use ira_event::Logs;
use std::alloc::Allocator;

/// One order of all events of the logs as a list of places, each event after those that happened
/// before it; or the fault of logs that don't match, or a circle where they match and have no order.
/// Time and memory are linear in the number of events. Whether the events have node steps doesn't
/// matter here.
pub fn find_order<A: Allocator + Clone>(alloc: A, logs: &Logs<A>) -> Result<Vec<u8, A>, OrderFault>
    ensures ok { IfOk result (λ places. IsOrdered (record { logs = logs.now; schedule = places.items })) }
    ensures matching { (f : MatchFault) → (result ≡ Err (Match f)) ↔ IsMatchFault logs.now f }
    ensures circle { result ≢ Err OutOfMemory → (result ≡ Err Circle) ↔ HasCircle logs.now }
{
    match_links(logs)?;
    OrderPrefix::longest(alloc, logs)?.into_order(logs)
}

/// The logs with one order of all their events, and which of them happened before one another; or why
/// there is none, as `find_order` says. It takes a counter of each node for each receipt, and time in
/// proportion.
pub fn order<A: Allocator + Clone>(alloc: A, logs: &Logs<A>) -> Result<Ordered<'_, A>, OrderFault>
    ensures logs { IfOk result (λ o. o.logs ≡ logs.now) }
    ensures ok { IfOk result (λ o. IsOrdered o) }
    ensures matching { (f : MatchFault) → (result ≡ Err (Match f)) ↔ IsMatchFault logs.now f }
    ensures circle { result ≢ Err OutOfMemory → (result ≡ Err Circle) ↔ HasCircle logs.now }
{
    let schedule = find_order(alloc, logs)?;
    let alloc = schedule.allocator().clone()?;
    let stamps = Stamps::of_order(alloc, logs, &schedule)?;
    Ok(Ordered::of_parts(logs, schedule, stamps))
}
