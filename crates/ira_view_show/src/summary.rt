ghost use Rattle.std.specs.Prelude.{◌≡◌};
ghost use Rattle.ira_view_show.specs.Summary.{leader_from, leads_in, summary_text};
ghost use Rattle.ira_order.specs.Matching.{Matches};
ghost use Rattle.ira_order.specs.Run.{AreLocalRuns};
ghost use Rattle.ira_view_page.specs.Page.{Added, AddedSome};

use crate::totals::totals_of;
use ira_event::{Logs, OutOfMemory};
use ira_node::{NodeState, Phase};
use ira_view_moment::Moment;
use ira_view_page::{Leads, Page};
use std::alloc::Allocator;

/// How a node leads, if it does.
fn leading(node: u8, state: NodeState) -> Option<Leads>
    ensures { result ≡ leads_in node state }
{
    match state.phase {
        Phase::Leader { round, id } => Some(Leads {
            node,
            round,
            term: state.term,
            id,
        }),
        _ => None,
    }
}

/// The node at the least place that leads.
pub(crate) fn first_leader<A: Allocator>(moment: &Moment<A>) -> Option<Leads>
    ensures { result ≡ leader_from 0 moment.now.nodes }
{
    for place in 0..moment.size() {
        let found = leading(place, moment.node(place).state);
        if let Some(leads) = found {
            return Some(leads);
        }
    }
    None
}

/// Adds a line on the whole ring: who leads, how many nodes and events there are, and what crossed the links.
pub(crate) fn show_summary<A: Allocator, M: Allocator>(page: &mut Page<A>, moment: &Moment<M>)
    ensures { Added page.old (summary_text moment.now) page.new }
{
    page.summary(first_leader(moment), totals_of(moment));
    page.end();
}

/// Adds the same of when the logs end, as a paragraph.
pub fn print_run<A: Allocator + Clone>(
    alloc: &A,
    logs: &Logs<A>,
    page: &mut Page<A>,
) -> Result<(), OutOfMemory>
    requires matches { Matches logs.now }
    requires local { AreLocalRuns logs.now }
    ensures { AddedSome page.old page.new }
{
    let moment = Moment::at_end(alloc.clone()?, logs)?;
    let mut text = Page::new(alloc);
    text.summary(first_leader(&moment), totals_of(&moment));
    page.paragraph_of(&text);
    Ok(())
}
