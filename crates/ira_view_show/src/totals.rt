ghost use Rattle.std.specs.Prelude.{◌≡◌, length};
ghost use Rattle.std.specs.List.{list_any};
ghost use Rattle.ira_view_moment.specs.Totals.{capped_sum};
ghost use Rattle.ira_view_show.specs.Totals.{ring_totals, shows_reset};

use ira_node::{NodeState, Phase};
use ira_view_moment::{Moment, NodeProgress};
use ira_view_page::RingTotals;
use std::alloc::Allocator;

/// What a ring's nodes and events come to at a moment.
pub(crate) fn totals_of<A: Allocator>(moment: &Moment<A>) -> RingTotals
    ensures { result ≡ ring_totals moment.now }
{
    let nodes = moment.nodes();
    let totals = moment.totals();
    RingTotals {
        nodes: nodes.len(),
        events: totals.events,
        sent: totals.sent,
        received: totals.received,
        way: number_on_the_way(moment),
        has_resets: has_resets(nodes),
    }
}

/// How many loads are on their way.
pub(crate) fn number_on_the_way<A: Allocator>(moment: &Moment<A>) -> usize
    ensures { result ≡ capped_sum length moment.now.links }
{
    let mut number = 0usize;
    for link in 0..moment.size() {
        number = number.saturating_add(moment.on_link(link).len());
    }
    number
}

/// Whether a reset was sent: by a node that yielded and owes it no more, or before a node came to a later term.
fn has_resets(nodes: &[NodeProgress]) -> bool
    ensures { result ≡ list_any (λ p. shows_reset p.state) nodes.now }
{
    nodes.iter().any(|node| shows_reset(node.state))
}

/// Whether a node's state shows that a reset was sent.
fn shows_reset(state: NodeState) -> bool
    ensures { result ≡ shows_reset state }
{
    match state.phase {
        Phase::Yielding => state.term > 1 || state.owed.is_none(),
        _ => state.term > 1,
    }
}
