ghost use Rattle.std.specs.Prelude.{IfOk};
ghost use Rattle.ira_order.specs.Circle.{HasOrder};
ghost use Rattle.ira_order.specs.FaultyEvent.{AreFirstFaultyEvents, IsFirstFaultyEvent};
ghost use Rattle.ira_view_explain.specs.Refused.{AreOtherStops, AreSteps, AreStepsTold, IsOtherStop};
ghost use Rattle.ira_view_page.specs.Parts.{AreParts};

use crate::ring_files::RingFiles;
use crate::stop_hint::StopHint;
use crate::stopped_log::StoppedLog;
use ira_event::{Event, NodeLog, OutOfMemory};
use ira_order::{DirectDependencies, FaultyEvent, HappenedBefore};
use ira_view_evidence::{Origin, origins};
use ira_view_page::{Emphasis, Evidence, Page, event_at, file_of, hints_of, log_at};
use std::alloc::Allocator;

/// At most so many events of other nodes are shown on a page.
const MOST_OTHERS: usize = 4;

/// A node's first event without a step, where the answer names another node's.
#[derive(Clone, Copy)]
pub(crate) struct OtherStop {
    pub(crate) stop: FaultyEvent,
    pub(crate) event: Event,
    /// Whether it happened before the one that the answer names.
    pub(crate) happened_before: bool,
}

impl OtherStop {
    fn of<A: Allocator>(
        ordered: &DirectDependencies<'_, A>,
        stop: FaultyEvent,
        named: FaultyEvent,
    ) -> OtherStop
        requires stop { IsFirstFaultyEvent ordered.now stop }
        requires named { IsFirstFaultyEvent ordered.now named }
        ensures { IsOtherStop ordered.now named stop result }
    {
        let (at, before) = (stop.at, named.at);
        OtherStop {
            stop,
            event: ordered.logs().log(at.place).event(at.position),
            happened_before: ordered.before(at.place, at.position, before.place, before.position),
        }
    }
}

/// The events without a step of logs that have an order.
#[derive(Drop)]
pub(crate) struct StepsFinding<'a, 'l, A: Allocator> {
    /// The one that the answer names.
    pub(crate) named: FaultyEvent,
    /// Why it has none.
    pub(crate) log: StoppedLog<'a, 'l, A>,
    pub(crate) others: Vec<OtherStop, A>,
    /// Where to begin, where there are others.
    pub(crate) origins: Vec<Origin, A>,
    /// The one of the least place that happened before the named one and before which none did.
    beginning: Option<StoppedLog<'a, 'l, A>>,
}

/// The events of the other nodes.
fn other_stops<A: Allocator + Clone>(
    alloc: A,
    ordered: &DirectDependencies<'_, A>,
    faulty: &[FaultyEvent],
    named: FaultyEvent,
) -> Result<Vec<OtherStop, A>, OutOfMemory>
    requires faulty { AreFirstFaultyEvents ordered.now faulty.now }
    requires named { IsFirstFaultyEvent ordered.now named }
    ensures { IfOk result (λ others. AreParts (AreOtherStops ordered.now named) faulty.now others.items) }
{
    let mut others = Vec::new(alloc);
    for stop in faulty {
        if stop.at.place != named.at.place {
            others.push(OtherStop::of(ordered, *stop, named))?;
        }
    }
    Ok(others)
}

impl<'a, 'l, A: Allocator + Clone> StepsFinding<'a, 'l, A> {
    /// The named event of these.
    pub(crate) fn find(
        ring: &RingFiles<'a, 'l, A>,
        faulty: &[FaultyEvent],
        named: FaultyEvent,
    ) -> Result<StepsFinding<'a, 'l, A>, OutOfMemory>
        requires order { HasOrder ring.now.logs.now }
        requires faulty { AreFirstFaultyEvents ring.now.logs.now faulty.now }
        requires named { IsFirstFaultyEvent ring.now.logs.now named }
        ensures { IfOk result (AreSteps ring.now.logs.now faulty.now named) }
    {
        let log = ring.logs.log(named.at.place);
        let file = file_of(ring.files, named.at.place);
        let Some(found) = StoppedLog::find(ring.alloc, file, log)? else {
            unreachable!()
        };
        let ordered = DirectDependencies::new(ring.alloc.clone()?, ring.logs)?;
        let origins = origins(ring.alloc.clone()?, &ordered, faulty, named)?;
        Ok(StepsFinding {
            named,
            log: found,
            others: other_stops(ring.alloc.clone()?, &ordered, faulty, named)?,
            beginning: ring.beginning(&origins)?,
            origins,
        })
    }

    /// What it rests on.
    pub(crate) fn evidence(
        &self,
        ring: &RingFiles<'_, '_, A>,
    ) -> Result<Vec<Evidence<A>, A>, OutOfMemory>
        ensures { IfOk result (λ told. AreStepsTold ring.now.files.now self.now.named.at self.now.log.stopped.event
            self.now.others.items told.items) }
    {
        let mut told = Vec::new(ring.alloc.clone()?);
        told.push(Evidence::Faulty(ring.record(self.named.at, self.log.stopped.event)?))?;
        for other in &self.others {
            let event = ring.record(other.stop.at, other.event)?;
            told.push(Evidence::OtherFaulty {
                event,
                fault: other.stop.fault,
                happened_before: other.happened_before,
            })?;
        }
        Ok(told)
    }

    /// Adds why the named event has no step, and which such events other nodes have.
    pub(crate) fn print(&self, ring: &RingFiles<'_, '_, A>, page: &mut Page<A>) {
        self.log.print(page);
        if !self.others.is_empty() {
            page.blank();
        }
        match &self.beginning {
            Some(stopped) => {
                self.print_beginnings(ring, page);
                page.blank();
                stopped.print(page);
            }
            None => self.print_others(ring, page),
        }
        if self.hint(ring).is_some() {
            page.blank();
        }
    }

    /// The usual cause of the event to begin with, where there is one.
    fn hint(&self, ring: &RingFiles<'_, '_, A>) -> Option<StopHint> {
        let first = self.beginning.as_ref().unwrap_or(&self.log);
        match (first.hint, ring.before(first.log.place())) {
            (None, Some(before)) => first.stopped.missing_receipt(first.log, before),
            (hint, _) => hint,
        }
    }

    /// The same as a sentence.
    pub(crate) fn hints(
        &self,
        ring: &RingFiles<'_, '_, A>,
    ) -> Result<Vec<String<A>, A>, OutOfMemory> {
        hints_of(ring.alloc, self.hint(ring).as_ref())
    }

    /// Adds where to begin: those of the events that happened before the named one and before which none did.
    fn print_beginnings(&self, ring: &RingFiles<'_, '_, A>, page: &mut Page<A>) {
        let is_one = self.origins.iter().filter(|b| b.happened_before).count() == 1;
        let mut text = Page::new(ring.alloc);
        text.words("Begin elsewhere: of ");
        text.number(self.others.len().saturating_add(1) as u64);
        text.words(" nodes with such an event the least is named, but ");
        text.words(if is_one { "this" } else { "these" });
        text.words(" happened before:");
        page.paragraph_of(&text);
        for origin in self
            .origins
            .iter()
            .filter(|b| b.happened_before)
            .take(MOST_OTHERS)
        {
            ring.print_stop(page, origin.event);
        }
    }

    /// Adds the events without a step of other nodes, where there are any.
    fn print_others(&self, ring: &RingFiles<'_, '_, A>, page: &mut Page<A>) {
        if self.others.is_empty() {
            return;
        }
        page.line(Emphasis::Plain, "In other logs, and not before the above:");
        for other in self.others.iter().take(MOST_OTHERS) {
            ring.print_stop(page, other.stop);
        }
        if self.others.len() > MOST_OTHERS {
            page.line(Emphasis::Plain, "  ..");
        }
    }
}

impl<'a, 'l, A: Allocator + Clone> RingFiles<'a, 'l, A> {
    /// The log of the node before this one.
    fn before(&self, place: u8) -> Option<&'a NodeLog<A>> {
        let last = self.logs.size().get().saturating_sub(1);
        log_at(self.logs, place.checked_sub(1).unwrap_or(last))
    }

    /// Why the event to begin with of the least place that happened before the named one has no step.
    fn beginning(&self, origins: &[Origin]) -> Result<Option<StoppedLog<'a, 'l, A>>, OutOfMemory> {
        let Some(first) = origins.iter().find(|origin| origin.happened_before) else {
            return Ok(None);
        };
        let place = first.event.at.place;
        match log_at(self.logs, place) {
            Some(log) => StoppedLog::find(self.alloc, file_of(self.files, place), log),
            None => Ok(None),
        }
    }

    /// Adds another node's event that has no step.
    fn print_stop(&self, page: &mut Page<A>, stop: FaultyEvent) {
        let FaultyEvent { at, fault } = stop;
        if let Some(event) = event_at(self.logs, at) {
            page.words("    ");
            page.record(file_of(self.files, at.place), at.position, event);
            page.numbered(", event ", at.position);
            page.numbered(" of node ", u32::from(at.place));
            page.words(": ");
            page.fault(fault);
            page.end();
        }
    }
}
