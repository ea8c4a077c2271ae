ghost use Rattle.std.specs.Prelude.{◌≡◌, ◌<◌, IfOk, length};
ghost use Rattle.ira_mend.specs.Beginning.{IsGreatestBeginning};
ghost use Rattle.ira_mend.specs.Longest.{AreBeginnings, BoundsAll, IsSettled, events_kept};

use crate::beginning::Beginning;
use ira_event::{Logs, OutOfMemory};
use ira_order::successor;
use std::alloc::Allocator;

/// All of each log.
fn whole_logs<A: Allocator>(alloc: A, logs: &Logs<A>) -> Result<Vec<Beginning, A>, OutOfMemory>
    ensures { IfOk result (λ kept. AreBeginnings logs.now kept.items × BoundsAll logs.now kept.items) }
{
    let nodes = logs.size().get();
    let mut kept = Vec::with_capacity(alloc, usize::from(nodes))?;
    for place in 0..nodes {
        kept.push(Beginning::whole(logs.log(place)))?;
    }
    Ok(kept)
}

/// Shortens what is kept of the link's reader until each receipt has a sending, and says whether it had to.
fn settle<A: Allocator>(logs: &Logs<A>, kept: &mut [Beginning], link: u8) -> bool
    requires kept { AreBeginnings logs.now kept.old }
    requires link { link < length logs.now }
    ensures { IsSettled logs.now link kept.old kept.new result }
{
    let reader = successor(logs.size().get(), link);
    let node = usize::from(reader);
    let sendings = kept[usize::from(link)].sendings;
    let old = kept[node];
    if old.receipts <= sendings {
        return false;
    }
    kept[node] = old.with_receipts(logs.log(reader), sendings);
    true
}

/// The greatest consistent beginning. A link is looked at once, and then once more each time that its writer's log got
/// shorter.
pub(crate) fn longest_beginnings<A: Allocator>(
    alloc: A,
    logs: &Logs<A>,
) -> Result<Vec<Beginning, A>, OutOfMemory>
    ensures { IfOk result (λ kept. IsGreatestBeginning logs.now (events_kept kept.items)) }
{
    let nodes = logs.size().get();
    let mut kept = whole_logs(alloc, logs)?;
    for link in 0..nodes {
        settle(logs, &mut kept, link);
    }
    let mut link = 0;
    while settle(logs, &mut kept, link) {
        link = successor(nodes, link);
    }
    Ok(kept)
}
