ghost use Rattle.std.specs.Prelude.{◌≡◌, ◌<◌, length};

use crate::columns::Columns;
use crate::links::Links;
use ira_event::{Event, Logs, OutOfMemory};
use ira_order::predecessor;
use std::alloc::Allocator;

/// Lamport's logical clock (1978): an event's column is one more than that of the event before it in its log, and than
/// that of the sending that it takes. Nothing is promised of it: what it finds is looked at afterwards.
#[derive(Drop)]
struct Clock<A: Allocator> {
    rows: Vec<Vec<u32, A>, A>,
    links: Links<A>,
    /// How many sendings of each node have no column yet.
    unsent: Vec<usize, A>,
}

impl<A: Allocator + Clone> Clock<A> {
    fn new<L: Allocator>(alloc: A, logs: &Logs<L>) -> Result<Clock<A>, OutOfMemory> {
        let size = logs.size().get();
        let mut rows = Vec::with_capacity(alloc.clone()?, usize::from(size))?;
        let mut unsent = Vec::with_capacity(alloc.clone()?, usize::from(size))?;
        for place in 0..size {
            let log = logs.log(place);
            rows.push(Vec::with_capacity(alloc.clone()?, log.len())?)?;
            let sendings = log.events().filter(|event| matches!(event, Event::Sent(_)));
            unsent.push(sendings.count())?;
        }
        let links = Links::new(alloc, size)?;
        Ok(Clock {
            rows,
            links,
            unsent,
        })
    }

    /// The column of what a link carries next, 0 where it carries nothing more and never will.
    fn receive(&mut self, link: u8) -> Option<u32> {
        match self.links.receive(link) {
            None if self.unsent.get(usize::from(link)).copied().unwrap_or(0) == 0 => Some(0),
            column => column,
        }
    }

    fn send(&mut self, link: u8, column: u32) -> Result<(), OutOfMemory> {
        if let Some(unsent) = self.unsent.get_mut(usize::from(link)) {
            *unsent = unsent.saturating_sub(1);
        }
        self.links.send(link, column)
    }

    fn push(&mut self, place: u8, column: u32) -> Result<(), OutOfMemory> {
        if let Some(row) = self.rows.get_mut(usize::from(place)) {
            row.push(column)?;
        }
        Ok(())
    }

    /// How many events of a node have columns, and the last of these.
    fn made(&self, place: u8) -> (usize, u32) {
        match self.rows.get(usize::from(place)) {
            Some(row) => (row.len(), row.last().copied().unwrap_or(0)),
            None => (0, 0),
        }
    }

    /// The last column of all.
    fn last(&self, nodes: u8) -> u32 {
        let mut last = 0;
        for place in 0..nodes {
            last = self.made(place).1.max(last);
        }
        last
    }

    /// Columns for a node's events, as many as so many, right of a column, as far as what they take was sent.
    fn advance<L: Allocator>(
        &mut self,
        logs: &Logs<L>,
        place: u8,
        end: usize,
        floor: u32,
    ) -> Result<bool, OutOfMemory>
        requires { place < length logs.now }
    {
        let link = predecessor(logs.size().get(), place);
        let log = logs.log(place);
        let (begun, last) = self.made(place);
        let mut column = last.max(floor);
        for done in begun..end.min(log.len()) {
            let event = log.event(done as u32 + 1);
            if let Event::Got(_) = event {
                let Some(sent) = self.receive(link) else {
                    return Ok(done > begun);
                };
                column = column.max(sent);
            }
            column = column.saturating_add(1);
            if let Event::Sent(_) = event {
                self.send(place, column)?;
            }
            self.push(place, column)?;
        }
        Ok(begun < end)
    }

    /// The same of all nodes in turn, as long as some event gets a column.
    fn advance_all<L: Allocator>(
        &mut self,
        logs: &Logs<L>,
        ends: &[u32],
        floor: u32,
    ) -> Result<(), OutOfMemory>
        requires { length ends.now ≡ length logs.now }
    {
        for _round in 0..logs.number_of_events() {
            let mut has_moved = false;
            for place in 0..logs.size().get() {
                let end = ends[usize::from(place)] as usize;
                has_moved |= self.advance(logs, place, end, floor)?;
            }
            if !has_moved {
                break;
            }
        }
        Ok(())
    }

    /// Columns for those that are left of so many events of each node, one by one right of all that there are.
    fn fill(&mut self, nodes: u8, ends: &[u32]) -> Result<(), OutOfMemory>
        requires { length ends.now ≡ nodes }
    {
        let last = self.last(nodes);
        for place in 0..nodes {
            let mut column = last;
            for _ in self.made(place).0..ends[usize::from(place)] as usize {
                column = column.saturating_add(1);
                self.push(place, column)?;
            }
        }
        Ok(())
    }
}

/// The columns of all events, those of the cut left of its line and the others right of it; those that wait for one
/// another in a circle are right of all others.
pub(crate) fn find_columns<L: Allocator, A: Allocator + Clone>(
    alloc: A,
    logs: &Logs<L>,
    cut: &[u32],
    all: &[u32],
) -> Result<Columns<A>, OutOfMemory>
    requires cut { length cut.now ≡ length logs.now }
    requires all { length all.now ≡ length logs.now }
{
    let size = logs.size().get();
    let mut clock = Clock::new(alloc, logs)?;
    clock.advance_all(logs, cut, 0)?;
    clock.fill(size, cut)?;
    let line = clock.last(size).saturating_add(1);
    clock.advance_all(logs, all, line)?;
    clock.fill(size, all)?;
    Ok(Columns {
        nodes: clock.rows,
        line,
    })
}
