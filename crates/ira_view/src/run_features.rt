ghost use Rattle.std.specs.Prelude.{◌≡◌, IfOk};
ghost use Rattle.std.specs.List.{list_any};
ghost use Rattle.ira_view.specs.RunFeatures.{AreFeatures, is_woken};
ghost use Rattle.ira_view_moment.specs.Moment.{IsMoment, whole_cut};

use ira_audit::GoodLogs;
use ira_event::{Logs, OutOfMemory};
use ira_view_json::RunFeatures;
use ira_view_moment::{Moment, Rounds};
use std::alloc::Allocator;

/// Whether a node drew that isn't an initiator.
fn has_wake_up<A: Allocator>(logs: &Logs<A>, end: &Moment<A>) -> bool
    requires { IsMoment logs.now (whole_cut logs.now) end.now }
    ensures { result ≡ list_any is_woken logs.now }
{
    for place in 0..end.size() {
        if !logs.log(place).initiator() && end.node(place).draws > 0 {
            return true;
        }
    }
    false
}

/// What the run of these logs had, where that is asked.
pub fn features_of_run<A: Allocator + Clone>(
    alloc: A,
    is_asked: bool,
    logs: &GoodLogs<A>,
) -> Result<Option<RunFeatures>, OutOfMemory>
    ensures { IfOk result (AreFeatures is_asked logs.now) }
{
    if !is_asked {
        return Ok(None);
    }
    let logs = logs.logs();
    let moment = Moment::at_end(alloc.clone()?, logs)?;
    let rounds = Rounds::at_end(alloc, logs)?;
    let (nodes, rounds) = (moment.nodes(), rounds.as_slice());
    Ok(Some(RunFeatures {
        tie: rounds.iter().any(|round| round.greatest_of.len() > 1),
        second_round: rounds.iter().any(|round| round.number > 1),
        second_term: nodes.iter().any(|node| node.state.term > 1),
        wake_up: has_wake_up(logs, &moment),
        dropped: nodes.iter().any(|node| node.dropped > 0),
    }))
}
