ghost use Rattle.std.specs.Prelude.{◌≡◌, IfOk, MatchOption, nat_lt};
ghost use Rattle.std.specs.List.{list_all};
ghost use Rattle.ira_view.specs.Differences.{AreDifferences, AreDifferencesExplained, ArePlaces, TellsOfLeader, TellsUnfinished};

use ira_audit::GoodLogs;
use ira_event::OutOfMemory;
use ira_view_election::{election_at_end, print_unfinished};
use ira_view_moment::{Moment, Rounds};
use ira_view_page::{NamedText, Page, PageText};
use ira_view_show::{explain_leads, leader_missing, leads_differ};
use std::alloc::Allocator;

/// Whether the numbers are places of a ring of so many nodes.
fn are_places(named: &[u64], nodes: u8) -> bool
    ensures { result ≡ list_all (λ place. nat_lt place nodes) named.now }
{
    named.iter().all(|place| *place < u64::from(nodes))
}

/// A line for each node of which those that are named say otherwise than the logs whether it leads at their end.
/// Nothing where one that is named is none of the ring.
pub fn differences<A: Allocator + Clone>(
    alloc: A,
    logs: &GoodLogs<A>,
    named: &[u64],
) -> Result<Option<PageText<A>>, OutOfMemory>
    ensures { IfOk result (λ found. MatchOption found
        (¬ (ArePlaces logs.now named.now)) (AreDifferences logs.now named.now)) }
{
    let logs = logs.logs();
    if !are_places(named, logs.size().get()) {
        return Ok(None);
    }
    let moment = Moment::at_end(alloc.clone()?, logs)?;
    Ok(Some(leads_differ(alloc, &moment, named)?))
}

/// Why the nodes lead or don't that have such a line, of logs in these files.
pub fn explain_differences<A: Allocator + Clone>(
    alloc: A,
    files: &[NamedText<'_>],
    logs: &GoodLogs<A>,
    named: &[u64],
) -> Result<PageText<A>, OutOfMemory>
    ensures { IfOk result (AreDifferencesExplained files.now logs.now named.now) }
{
    let logs = logs.logs();
    let moment = Moment::at_end(alloc.clone()?, logs)?;
    let rounds = Rounds::at_end(alloc.clone()?, logs)?;
    explain_leads(alloc, files, logs, &moment, &rounds, named)
}

/// A line where no node leads when the logs end.
pub fn missing_leader<A: Allocator + Clone>(
    alloc: A,
    logs: &GoodLogs<A>,
) -> Result<PageText<A>, OutOfMemory>
    ensures { IfOk result (TellsOfLeader logs.now) }
{
    let moment = Moment::at_end(alloc.clone()?, logs.logs())?;
    leader_missing(alloc, &moment)
}

/// Lines where the election isn't over when the logs end: that it isn't, and which nodes can go on, and with what.
pub fn unfinished_election<A: Allocator + Clone>(
    alloc: A,
    logs: &GoodLogs<A>,
) -> Result<PageText<A>, OutOfMemory>
    ensures { IfOk result (TellsUnfinished logs.now) }
{
    let election = election_at_end(alloc.clone()?, logs.logs())?;
    let mut page = Page::new(alloc);
    print_unfinished(&mut page, &election);
    page.finish()
}
