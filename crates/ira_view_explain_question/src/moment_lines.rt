ghost use Rattle.std.specs.Prelude.{◌<◌, length};
ghost use Rattle.ira_view_page.specs.Page.{AddedSome};

use crate::asked_lines::last_place;
use crate::explained_case::ExplainedCase;
use ira_event::Load;
use ira_order::EventAt;
use ira_view_moment::{Moment, NodeProgress};
use ira_view_page::{Emphasis, Page, Row, Table, event_at};
use std::alloc::Allocator;

/// At most so many loads on their way are told.
const MOST_LOADS: usize = 6;

/// How many digits a place has.
fn digits(place: u8) -> usize {
    match place {
        0..=9 => 1,
        10..=99 => 2,
        _ => 3,
    }
}

/// Adds a load after so many others, where it is among the first.
fn print_load<P: Allocator>(page: &mut Page<P>, told: usize, link: u8, load: Load)
    ensures { AddedSome page.old page.new }
{
    if told >= MOST_LOADS {
        return;
    }
    page.words(if told == 0 { "On their way: " } else { ", " });
    page.load(load);
    page.numbered(" from node ", link as u32);
}

/// Adds how many of so many loads aren't told, or that there are none.
fn print_more_loads<P: Allocator>(page: &mut Page<P>, told: usize)
    ensures { AddedSome page.old page.new }
{
    if told == 0 {
        return page.words("No message is on its way");
    }
    if told > MOST_LOADS {
        page.words(" and ");
        page.number((told - MOST_LOADS) as u64);
        page.words(" more");
    }
}

/// Adds what is on its way at a moment.
fn print_loads<A: Allocator, P: Allocator>(page: &mut Page<P>, moment: &Moment<A>)
    ensures { AddedSome page.old page.new }
{
    page.begin(Emphasis::Plain);
    page.words("  ");
    let mut told = 0usize;
    for link in 0..moment.size() {
        for load in moment.on_link(link) {
            print_load(page, told, link, *load);
            told = told.saturating_add(1);
        }
    }
    print_more_loads(page, told);
    page.words(".");
    page.end();
}

impl<A: Allocator + Clone> ExplainedCase<'_, A> {
    /// Adds the first moment that meets it.
    pub(crate) fn print_moment(&self, page: &mut Page<A>, moment: &Moment<A>)
        ensures { AddedSome page.old page.new }
    {
        page.line(
            Emphasis::Plain,
            "  Of the moments that meet it this is the first: each other is there or later at every node.",
        );
        self.print_nodes(page, moment);
        print_loads(page, moment);
        page.begin(Emphasis::Plain);
        page.words("  The way there: ira show --events ");
        self.print_question(page);
        page.words(" --case ");
        page.number(self.number as u64);
        page.words(" LOG..");
        page.end();
    }

    /// Adds the option that its question comes from; of a sentence's question that is the name of the file.
    fn print_question(&self, page: &mut Page<A>)
        ensures { AddedSome page.old page.new }
    {
        if self.lines.name == "--ask" {
            return page.words("--ask SENTENCE");
        }
        page.words("--question ");
        page.show(self.lines.name.as_bytes());
    }

    /// Adds what the nodes that it asks are at a moment.
    fn print_nodes(&self, page: &mut Page<A>, moment: &Moment<A>)
        ensures { AddedSome page.old page.new }
    {
        let alloc = self.ring.alloc;
        let mut nodes = Table::new(alloc);
        for n in 0..self.case.len() {
            let place = self.case.place(n);
            if place < moment.size() {
                let mut row = Row::new(alloc);
                row.left(self.node_cell(place));
                row.left(self.asked_cell(n));
                row.left(self.state_cell(place, moment.node(place)));
                nodes.add(Emphasis::Plain, row);
            }
        }
        page.table(&nodes);
    }

    /// A node.
    fn node_cell(&self, place: u8) -> Page<&A> {
        let mut cell = Page::new(self.ring.alloc);
        cell.words("  node ");
        let column = cell.column().saturating_add(digits(last_place(self.case)));
        cell.number_to(column, place as u64);
        cell
    }

    /// What clause `n` asks.
    fn asked_cell(&self, n: usize) -> Page<&A>
        requires { n < length self.now.case.now }
    {
        let mut cell = Page::new(self.ring.alloc);
        cell.words("asked ");
        cell.quote(self.clause(n));
        cell
    }

    /// What a node is after its events, and the last of them.
    fn state_cell(&self, place: u8, progress: NodeProgress) -> Page<&A> {
        let mut cell = Page::new(self.ring.alloc);
        cell.words("is ");
        cell.state(&progress.state);
        let position = progress.events;
        match event_at(self.ring.logs(), EventAt { place, position }) {
            Some(event) => {
                cell.words(", after ");
                cell.record(self.ring.file_of(place), position, event);
            }
            None => cell.words(", at its start"),
        }
        cell
    }
}
