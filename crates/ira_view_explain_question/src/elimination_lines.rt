ghost use Rattle.std.specs.Prelude.{◌≡◌, ◌+◌, ◌<◌, slice_get};
ghost use Rattle.ira_order.specs.Before.{Before};
ghost use Rattle.ira_order.specs.Ring.{log_of, numbered};
ghost use Rattle.ira_view_page.specs.Page.{Added};
ghost use Rattle.ira_view_explain_question.specs.EliminationLines.{bracket_text, by_text, elimination_text, line_text};
ghost use Rattle.ira_view_explain_question.specs.EliminationLines.{links_between, name_of, over_text, states_text};

use crate::asked_ring::AskedRing;
use ira_order::EventAt;
use ira_view_evidence::Elimination;
use ira_view_page::{Emphasis, Page, event_at, line_of};
use std::alloc::Allocator;

/// How many links lead from a node to another one, in a ring of so many.
fn links_between(nodes: u8, from: u8, to: u8) -> usize
    requires { from < nodes }
    ensures { result ≡ links_between nodes from to }
{
    (usize::from(nodes) + usize::from(to) - usize::from(from)) % usize::from(nodes)
}

/// Adds one state, or the first and the last of several.
fn print_states<P: Allocator>(page: &mut Page<P>, first: u32, last: u32)
    ensures { Added page.old (states_text first last) page.new }
{
    if first == last {
        page.words(" state ");
    } else {
        page.numbered(" states ", first);
        page.words(" to ");
    }
    page.number(last as u64);
}

impl<A: Allocator + Clone> AskedRing<'_, A> {
    /// Adds which states of a node are ruled out, and why.
    pub(crate) fn print_elimination(&self, page: &mut Page<A>, elimination: Elimination)
        requires { Before self.now.asked.now.logs elimination.node (elimination.last + 1) elimination.other
            elimination.other_pos }
        ensures { Added page.old
            (elimination_text self.now.files.logs.now self.now.asked.now.logs elimination) page.new }
    {
        self.print_over(page, elimination);
        self.print_by(page, elimination);
    }

    /// Adds which states they are, and the event by which they are over.
    fn print_over(&self, page: &mut Page<A>, elimination: Elimination)
        requires { Before self.now.asked.now.logs elimination.node (elimination.last + 1) elimination.other
            elimination.other_pos }
        ensures { Added page.old (over_text self.now.files.logs.now self.now.asked.now.logs elimination) page.new }
    {
        let _ring = self.logs().size();
        let over = elimination.last + 1;
        page.begin(Emphasis::Plain);
        page.numbered("  node ", elimination.node as u32);
        print_states(page, elimination.first, elimination.last);
        page.words(": over by event ");
        page.number(over as u64);
        self.print_event(page, elimination.node, over);
        page.words(",");
        page.end();
    }

    /// Adds the event of the other node before which that one happened.
    fn print_by(&self, page: &mut Page<A>, elimination: Elimination)
        requires { Before self.now.asked.now.logs elimination.node (elimination.last + 1) elimination.other
            elimination.other_pos }
        ensures { Added page.old (by_text self.now.files.logs.now self.now.asked.now.logs elimination) page.new }
    {
        let Elimination {
            node,
            other,
            other_pos,
            ..
        } = elimination;
        let nodes = self.logs().size().get();
        page.begin(Emphasis::Plain);
        page.numbered("    which happened before event ", other_pos);
        page.words(" of node ");
        page.number(other as u64);
        self.print_event(page, other, other_pos);
        page.words(", by ");
        page.number_of(links_between(nodes, node, other), "message");
        page.end();
    }

    /// Adds the line and the record of an event, in brackets.
    fn print_event(&self, page: &mut Page<A>, place: u8, position: u32)
        ensures { Added page.old
            (bracket_text self.now.files.logs.now self.now.asked.now.logs place position) page.new }
    {
        page.words(" (");
        self.print_line(page, place, position);
        page.words(")");
    }

    /// Adds the line of an event, and its record where the log has it.
    fn print_line(&self, page: &mut Page<A>, place: u8, position: u32)
        ensures { Added page.old (line_text (name_of (slice_get self.now.files.logs.now place)) position
            (numbered (log_of self.now.asked.now.logs place) position)) page.new }
    {
        let file = self.file_of(place);
        match event_at(self.logs(), EventAt { place, position }) {
            Some(event) => page.record(file, position, event),
            None => page.place(file, line_of(position)),
        }
    }
}
