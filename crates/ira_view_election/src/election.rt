ghost use Rattle.std.specs.List.{flat_map};
ghost use Rattle.ira_view_election.specs.Election.{contenders_text, due_text, next_text, node_due_text, standing_of, standing_text, unfinished_text};
ghost use Rattle.ira_view_page.specs.Page.{Added};

use crate::due::{Due, NodeDue};
use ira_view_page::{Emphasis, Page};
use std::alloc::Allocator;

/// How the election of a ring stands at a moment.
#[derive(Drop)]
pub enum Election<A: Allocator> {
    /// A node leads.
    Over,
    /// No node leads.
    GoesOn {
        /// What comes next, in the order of the nodes; nothing where no node is an initiator.
        next: Vec<NodeDue, A>,
        /// Who can still lead by the draws; none where that is left unsaid.
        contenders: Vec<u8, A>,
    },
}

/// Adds what comes next at a node.
fn print_due<A: Allocator>(page: &mut Page<A>, due: Due)
    ensures { Added page.old (due_text due) page.new }
{
    match due {
        Due::Draw => page.words("draws"),
        Due::Send(load) => {
            page.words("sends ");
            page.load(load);
        }
        Due::Receive(load) => {
            page.words("receives ");
            page.load(load);
        }
    }
}

/// Adds the line of a node.
fn print_node_due<A: Allocator>(page: &mut Page<A>, next: NodeDue)
    ensures { Added page.old (node_due_text next) page.new }
{
    page.begin(Emphasis::Plain);
    page.words("node ");
    page.number(next.node as u64);
    page.words(" ");
    print_due(page, next.due);
    page.end();
}

/// Adds a line for each node at which something comes next.
fn print_nodes_due<A: Allocator>(page: &mut Page<A>, next: &[NodeDue])
    ensures { Added page.old (flat_map node_due_text next.now) page.new }
{
    for one in next {
        print_node_due(page, *one);
    }
}

/// Adds who can still lead, unless that is left unsaid.
fn print_contenders<A: Allocator>(page: &mut Page<A>, contenders: &[u8])
    ensures { Added page.old (contenders_text contenders.now) page.new }
{
    match contenders {
        [] => {}
        [place] => {
            page.words(" By the draws none but node ");
            page.number(*place as u64);
            page.words(" can lead in this term.");
        }
        _ => {
            page.words(" By the draws none but nodes ");
            page.places(contenders);
            page.words(" can lead in this term.");
        }
    }
}

/// Adds that the election isn't over, who can still lead, and what comes next.
fn print_next<A: Allocator>(page: &mut Page<A>, next: &[NodeDue], contenders: &[u8])
    ensures { Added page.old (next_text next.now contenders.now) page.new }
{
    if next.is_empty() {
        page.line(
            Emphasis::Plain,
            "The election isn't over, and nothing comes next: no node is an initiator.",
        );
        return;
    }
    page.begin(Emphasis::Plain);
    page.words("The election isn't over.");
    print_contenders(page, contenders);
    page.words(" What comes next:");
    page.end();
    print_nodes_due(page, next);
}

/// Adds that the election isn't over, where it isn't, and which nodes can go on, and with what.
pub fn print_unfinished<A: Allocator, B: Allocator>(page: &mut Page<A>, election: &Election<B>)
    ensures { Added page.old (unfinished_text (standing_of election.now)) page.new }
{
    match election {
        Election::Over => {}
        Election::GoesOn { next, contenders } => print_next(page, next, contenders),
    }
}

/// Adds whether the election is over, and if it isn't, which nodes can go on, and with what.
pub fn print_election<A: Allocator, B: Allocator>(page: &mut Page<A>, election: &Election<B>)
    ensures { Added page.old (standing_text (standing_of election.now)) page.new }
{
    match election {
        Election::Over => page.line(Emphasis::Plain, "The election is over."),
        Election::GoesOn { next, contenders } => print_next(page, next, contenders),
    }
}
