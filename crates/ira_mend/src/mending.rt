ghost use Rattle.std.specs.Prelude.{◌≡◌, ◌≤◌, IfOk, length};
ghost use Rattle.ira_mend.specs.Beginning.{AreBegun, begun};
ghost use Rattle.ira_mend.specs.Longest.{events_kept};
ghost use Rattle.ira_mend.specs.Mended.{IsGreatestOf, IsMending};
ghost use Rattle.ira_order.specs.Cut.{IsCut};

use crate::beginning::Beginning;
use crate::longest::longest_beginnings;
use crate::mend_fault::MendFault;
use ira_event::{Logs, NodeLog, OutOfMemory};
use ira_order::match_links;
use std::alloc::Allocator;

/// The first so many events of a log.
fn begin_log<A: Allocator>(
    alloc: A,
    log: &NodeLog<A>,
    events: u32,
) -> Result<NodeLog<A>, OutOfMemory>
    requires { events ≤ length log.now.events }
    ensures { IfOk result (λ l. l ≡ begun log.now events) }
{
    let mut kept = Vec::with_capacity(alloc, events as usize)?;
    for k in 0..events {
        kept.push(log.event(k + 1))?;
    }
    Ok(NodeLog::of_parts(
        log.version(),
        log.nodes(),
        log.place(),
        log.initiator(),
        kept,
    ))
}

/// Of each log what is kept.
fn begin_logs<A: Allocator + Clone>(
    alloc: A,
    logs: &Logs<A>,
    kept: &[Beginning],
) -> Result<Logs<A>, OutOfMemory>
    requires { IsCut logs.now (events_kept kept.now) }
    ensures { IfOk result (AreBegun logs.now (events_kept kept.now)) }
{
    let nodes = logs.size().get();
    let mut begun = Vec::with_capacity(alloc.clone()?, usize::from(nodes))?;
    for place in 0..nodes {
        let events = kept[usize::from(place)].events;
        begun.push(begin_log(alloc.clone()?, logs.log(place), events)?)?;
    }
    match Logs::gather(begun) {
        Ok(begun) => Ok(begun),
        Err(_fault) => unreachable!(),
    }
}

/// The greatest consistent beginning of the logs of a ring: of each log the longest beginning such that on each link the
/// receipts are no more than the sendings.
pub fn greatest_beginning<A: Allocator + Clone>(
    alloc: A,
    logs: &Logs<A>,
) -> Result<Logs<A>, OutOfMemory>
    ensures { IfOk result (IsGreatestOf logs.now) }
{
    let kept = longest_beginnings(alloc.clone()?, logs)?;
    Ok(begin_logs(alloc, logs, &kept)?)
}

/// The greatest consistent beginning, if it matches: a receipt in it that is of another message than its sending is a
/// fault. What stands after the beginnings isn't looked at.
pub fn mend<A: Allocator + Clone>(alloc: A, logs: &Logs<A>) -> Result<Logs<A>, MendFault>
    ensures { IsMending logs.now result }
{
    let mended = greatest_beginning(alloc, logs)?;
    match_links(&mended)?;
    Ok(mended)
}
