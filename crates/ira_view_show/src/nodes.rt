ghost use Rattle.std.specs.Prelude.{◌≡◌, [], Some, length};
ghost use Rattle.ira_view_show.specs.NodeLines.{head_cells, node_cells, nodes_text, start_text};
ghost use Rattle.ira_view_page.specs.Page.{Added};

use crate::cells::{add_left, add_number, add_number_if, add_right, add_right_if};
use ira_event::{Logs, NodeLog};
use ira_view_moment::{Moment, NodeProgress};
use ira_view_page::{Emphasis, Page, Row, Table};
use std::alloc::Allocator;

/// The first row of the table of nodes. The column that says how many events a log has in all is no narrower than five.
fn heads<T: Allocator + Copy>(alloc: T, has_all: bool) -> Row<T>
    ensures { Added (Some []) (head_cells has_all) result }
{
    let mut row = Row::new(alloc);
    add_right(&mut row, alloc, "node");
    add_left(&mut row, alloc, "start");
    add_right(&mut row, alloc, "events");
    add_right_if(&mut row, alloc, has_all, "   of");
    add_right(&mut row, alloc, "draws");
    add_right(&mut row, alloc, "sent");
    add_right(&mut row, alloc, "received");
    add_right(&mut row, alloc, "dropped");
    add_left(&mut row, alloc, "state");
    row
}

/// How a node starts: words as wide as one another, so that this column is as wide in each ring.
fn start_words(initiator: bool) -> &'static str
    ensures { result.now ≡ start_text initiator }
{
    if initiator { "initiator" } else { "passive  " }
}

/// The row of a node.
fn cells<T: Allocator + Copy, L: Allocator>(
    alloc: T,
    has_all: bool,
    log: &NodeLog<L>,
    node: NodeProgress,
) -> Row<T>
    ensures { Added (Some []) (node_cells has_all (log.now, node)) result }
{
    let mut row = Row::new(alloc);
    add_number(&mut row, alloc, log.place() as u64);
    add_left(&mut row, alloc, start_words(log.initiator()));
    add_number(&mut row, alloc, node.events as u64);
    add_number_if(&mut row, alloc, has_all, log.len() as u64);
    add_number(&mut row, alloc, node.draws as u64);
    add_number(&mut row, alloc, node.sent as u64);
    add_number(&mut row, alloc, node.received as u64);
    add_number(&mut row, alloc, node.dropped as u64);
    let mut state = Page::new(alloc);
    state.state(&node.state);
    row.left(state);
    row
}

/// Adds a line for each node, with how many events its log has in all where that is asked for.
pub(crate) fn show_nodes<A: Allocator, T: Allocator + Copy, L: Allocator, M: Allocator>(
    page: &mut Page<A>,
    alloc: T,
    logs: &Logs<L>,
    moment: &Moment<M>,
    has_all: bool,
)
    requires { length moment.now.nodes ≡ length logs.now }
    ensures { Added page.old (nodes_text has_all logs.now moment.now.nodes) page.new }
{
    let mut table = Table::new(alloc);
    table.add(Emphasis::Plain, heads(alloc, has_all));
    for place in 0..logs.size().get() {
        let row = cells(alloc, has_all, logs.log(place), moment.node(place));
        table.add(Emphasis::Plain, row);
    }
    page.table(&table);
}
