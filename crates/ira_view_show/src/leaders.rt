ghost use Rattle.std.specs.Prelude.{◌≡◌, ◌==◌, ◌↔◌, [], IfOk};
ghost use Rattle.std.specs.List.{list_any};
ghost use Rattle.ira_view_moment.specs.Moment.{AreLeaders};
ghost use Rattle.ira_view_election.specs.ElectionAt.{SomeNodeLeads};
ghost use Rattle.ira_view_show.specs.Leaders.{difference_text, differences_text, due_text, is_leader, missing_text};
ghost use Rattle.ira_view_show.specs.Summary.{leader_from};
ghost use Rattle.ira_view_page.specs.Page.{Added};

use crate::summary::first_leader;
use ira_event::OutOfMemory;
use ira_node::{NodeState, Phase, Wanted};
use ira_view_moment::Moment;
use ira_view_page::{Leads, Page, PageText};
use std::alloc::Allocator;

/// Whether a node in the phase leads.
pub(crate) fn is_leader(phase: Phase) -> bool
    ensures { result ≡ is_leader phase }
{
    matches!(phase, Phase::Leader { .. })
}

/// Whether a place is named.
pub(crate) fn is_named(named: &[u64], place: u8) -> bool
    ensures { result ≡ list_any (λ n. n == place) named.now }
{
    named.iter().any(|n| *n == u64::from(place))
}

/// Adds that a node is about to draw, where it is.
fn print_due<A: Allocator>(page: &mut Page<A>, wanted: Wanted)
    ensures { Added page.old (due_text wanted) page.new }
{
    match wanted {
        Wanted::Draw => page.words(", must draw"),
        Wanted::Send(_) | Wanted::Receipt | Wanted::Yield | Wanted::Nothing => {}
    }
}

/// Adds a line where a node leads and isn't named, or is named and doesn't lead.
fn compare<A: Allocator>(
    page: &mut Page<A>,
    place: u8,
    state: &NodeState,
    leads: bool,
    is_named: bool,
)
    ensures { Added page.old (difference_text leads is_named place state.now) page.new }
{
    match (leads, is_named) {
        (true, false) => {
            page.words("node ");
            page.number(place as u64);
            page.words(" leads, and isn't named");
            page.end();
        }
        (false, true) => {
            page.words("node ");
            page.number(place as u64);
            page.words(" doesn't lead: ");
            page.state(state);
            print_due(page, state.wanted());
            page.end();
        }
        (true, true) | (false, false) => {}
    }
}

/// A line for each node of which a ring says otherwise than its logs whether it leads; so none exactly where the named
/// nodes are those that lead. Each name is to be a place of the ring.
pub fn leads_differ<A: Allocator, M: Allocator>(
    alloc: A,
    moment: &Moment<M>,
    named: &[u64],
) -> Result<PageText<A>, OutOfMemory>
    ensures text { IfOk result (λ text. text ≡ differences_text named.now moment.now.nodes) }
    ensures none { IfOk result (λ text. (text ≡ []) ↔ AreLeaders moment.now named.now) }
{
    let mut page = Page::new(alloc);
    for place in 0..moment.size() {
        let state = moment.node(place).state;
        compare(
            &mut page,
            place,
            &state,
            is_leader(state.phase),
            is_named(named, place),
        );
    }
    page.finish()
}

/// Adds that no node leads, where none does.
fn print_missing<A: Allocator>(page: &mut Page<A>, leader: Option<Leads>)
    ensures { Added page.old (missing_text leader) page.new }
{
    match leader {
        None => {
            page.words("no node leads");
            page.end();
        }
        Some(_) => {}
    }
}

/// A line where no node leads; so none exactly where some node does.
pub fn leader_missing<A: Allocator, M: Allocator>(
    alloc: A,
    moment: &Moment<M>,
) -> Result<PageText<A>, OutOfMemory>
    ensures text { IfOk result (λ text. text ≡ missing_text (leader_from 0 moment.now.nodes)) }
    ensures none { IfOk result (λ text. (text ≡ []) ↔ SomeNodeLeads moment.now) }
{
    let mut page = Page::new(alloc);
    print_missing(&mut page, first_leader(moment));
    page.finish()
}
