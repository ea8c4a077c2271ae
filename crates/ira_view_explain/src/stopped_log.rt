ghost use Rattle.std.specs.Prelude.{IfOk, MatchOption};
ghost use Rattle.ira_replay.specs.LocalRun.{IsLocalRun};
ghost use Rattle.ira_view_explain.specs.Refused.{IsStopped};

use crate::carets::{carets_at_end, carets_below, digits};
use crate::stop_hint::StopHint;
use crate::stopped::Stopped;
use ira_event::{Event, NodeLog, OutOfMemory};
use ira_node::StepFault;
use ira_view_evidence::NodeEvidence;
use ira_view_page::{Emphasis, Page, Row, Table, event_of};
use std::alloc::Allocator;

/// So many events are shown before the one that has no step, and how the node starts where these are all.
const EVENTS_BEFORE: u32 = 4;

/// A log with an event that has no step, and the states that lead to it.
#[derive(Drop)]
pub(crate) struct StoppedLog<'a, 'l, A: Allocator> {
    alloc: &'l A,
    file: &'a str,
    pub(crate) log: &'a NodeLog<A>,
    pub(crate) evidence: NodeEvidence<A>,
    pub(crate) stopped: Stopped,
    pub(crate) hint: Option<StopHint>,
}

impl<'a, 'l, A: Allocator + Clone> StoppedLog<'a, 'l, A> {
    /// Nothing where each event of the log has a step.
    pub(crate) fn find(
        alloc: &'l A,
        file: &'a str,
        log: &'a NodeLog<A>,
    ) -> Result<Option<StoppedLog<'a, 'l, A>>, OutOfMemory>
        ensures { IfOk result (λ found. MatchOption found (IsLocalRun log.now) (IsStopped log.now)) }
    {
        let Some(evidence) = NodeEvidence::find(alloc.clone()?, log)? else {
            return Ok(None);
        };
        let stopped = Stopped::of(log, &evidence);
        Ok(Some(StoppedLog {
            alloc,
            file,
            log,
            evidence,
            stopped,
            hint: stopped.hint(log),
        }))
    }

    /// The line of a record, or of how the node starts, for a state after so many events.
    fn state_cell(&self, events: u32) -> Page<&'l A> {
        let mut cell = Page::new(self.alloc);
        match event_of(self.log, events) {
            Some(event) => cell.record(self.file, events, event),
            None => {
                cell.place(self.file, 4);
                cell.words(": start ");
                cell.words(if self.log.initiator() {
                    "initiator"
                } else {
                    "passive"
                });
            }
        }
        cell
    }

    /// The carets below what is wrong with the event, where it is one of its numbers or words.
    fn carets(&self, cell: &Page<&'l A>) -> Option<Page<&'l A>> {
        match (
            self.stopped.event,
            self.stopped.state.owed,
            self.stopped.fault,
        ) {
            (Event::Sent(sent), Some(owed), _) => carets_below(self.alloc, cell, sent, owed),
            (Event::Draw(id), _, StepFault::DrawRange) => {
                Some(carets_at_end(self.alloc, cell, digits(id)))
            }
            _ => None,
        }
    }

    /// Adds a record with what stands beside it.
    fn add_record(
        &self,
        table: &mut Table<&'l A>,
        mark: Emphasis,
        record: Page<&'l A>,
        beside: Page<&'l A>,
    ) {
        let mut row = Row::new(self.alloc);
        row.left(record);
        row.left(beside);
        table.add(mark, row);
    }

    /// Adds the event that has no step, with what is due in its place and carets below what is wrong with it.
    fn add_stopped(&self, table: &mut Table<&'l A>) {
        let record = self.state_cell(self.evidence.fault.position);
        let carets = self.carets(&record);
        let mut note = Page::new(self.alloc);
        note.words("no step: ");
        self.stopped.add_due(&mut note);
        self.add_record(table, Emphasis::Named, record, note);
        if let Some(carets) = carets {
            let mut row = Row::new(self.alloc);
            row.left(carets);
            table.add(Emphasis::Plain, row);
        }
    }

    /// The states that lead to the event, and the event.
    fn state_table(&self) -> Table<&'l A> {
        let mut table = Table::new(self.alloc);
        let mut events = self.evidence.first;
        for state in &self.evidence.states {
            if events == 0 || events.saturating_add(EVENTS_BEFORE) >= self.evidence.fault.position {
                let mut beside = Page::new(self.alloc);
                beside.state(state);
                self.add_record(&mut table, Emphasis::Plain, self.state_cell(events), beside);
            }
            events = events.saturating_add(1);
        }
        self.add_stopped(&mut table);
        table
    }

    /// Adds the states that lead to the event, and the rules that say what is due there.
    pub(crate) fn print(&self, page: &mut Page<A>) {
        page.table(&self.state_table());
        page.blank();
        let (rule, further) = self.stopped.rules();
        page.paragraph(rule);
        if let Some(rule) = further {
            page.paragraph(rule);
        }
    }
}
