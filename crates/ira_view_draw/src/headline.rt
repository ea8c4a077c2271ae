ghost use Rattle.std.specs.Option.{ForSome};
ghost use Rattle.std.specs.Prelude.{◌≡◌, IfOk};
ghost use Rattle.ira_audit.specs.Report.{reason_words};
ghost use Rattle.ira_view_page.specs.Page.{Added};
ghost use Rattle.ira_view_draw.specs.Escaped.{escaped};

use crate::svg::Svg;
use ira_audit::{Reason, reason_line};
use ira_event::{MemorySink, OutOfMemory, WriteFault};
use ira_node::Phase;
use ira_view_page::Page;
use ira_view_picture::{Lane, Picture};
use std::alloc::Allocator;

/// The words of a reason against logs: the line of their answer, without its line feed.
pub(crate) fn reason_words<A: Allocator>(
    alloc: A,
    reason: Reason,
) -> Result<MemorySink<A>, OutOfMemory>
    ensures { IfOk result (λ words. words.bytes ≡ reason_words reason) }
{
    let mut words = MemorySink::new(alloc);
    match reason_line(&reason).write(&mut words) {
        Ok(()) => Ok(words),
        Err(WriteFault) => Err(OutOfMemory),
    }
}

/// The reason against the logs that are drawn.
#[derive(Clone, Copy)]
pub(crate) struct ToldReason<'a> {
    pub(crate) reason: Reason,
    /// The line of the answer, without its line feed.
    pub(crate) words: &'a [u8],
    /// The first column of an event that it speaks of, where one is drawn.
    pub(crate) column: Option<u32>,
}

/// Adds who leads in the end.
fn write_leaders<A: Allocator>(page: &mut Page<A>, picture: &Picture<A>) {
    let mut is_first = true;
    for (place, lane) in picture.lanes.iter().enumerate() {
        if let Phase::Leader { round, id } = lane.end.phase {
            if !is_first {
                page.words("; ");
            }
            is_first = false;
            page.words("node ");
            page.number(place as u64);
            page.words(" leads in ");
            page.round(round, lane.end.term);
            page.numbered(" with ID ", id);
        }
    }
    if is_first {
        page.words("nobody leads yet");
    }
}

/// Adds what the picture shows: the reason against the logs, or who leads.
pub(crate) fn write_heading<A: Allocator>(
    out: &mut Svg<A>,
    picture: &Picture<A>,
    told: Option<ToldReason<'_>>,
)
    ensures { ForSome told.entry (λ t. Added out.old.page (escaped t.words.now) out.new.page) }
{
    match told {
        Some(told) => out.text(told.words),
        None => write_leaders(&mut out.page, picture),
    }
}

/// How many events all logs have.
fn number_of_events<A: Allocator>(picture: &Picture<A>) -> usize {
    let mut events = 0usize;
    for lane in &picture.lanes {
        events = events.saturating_add(lane.events as usize);
    }
    events
}

/// Adds how to read the picture, in which what the reason speaks of is ringed, or isn't drawn.
fn write_sentence<A: Allocator>(page: &mut Page<A>, told: Option<ToldReason<'_>>) {
    let Some(told) = told else {
        page.words(". Each event stands right of all that happened before it; this is no clock.");
        return;
    };
    page.words(match told.reason {
        Reason::Log { .. } => ". What is left, as far as it fits together: all of it is pale.",
        _ if told.column.is_none() => ". What the answer speaks of stands at other columns.",
        Reason::Match(_) => {
            ". Thick broken arrows join what is not the same message; the ringed receipt is the first such."
        }
        Reason::Circle => {
            ". Each ringed receipt waits for a sending that comes after the ringed receipt of its sender."
        }
        _ => ". The ringed event has no step; after it the states are unknown.",
    });
}

/// Adds how much the picture shows, and how to read it.
pub(crate) fn write_summary<A: Allocator>(
    page: &mut Page<A>,
    picture: &Picture<A>,
    told: Option<ToldReason<'_>>,
) {
    page.number_of(picture.lanes.len(), "node");
    page.words(", ");
    page.number_of(number_of_events(picture), "event");
    let (first, last, all) = (picture.window.first, picture.window.last, picture.last);
    if first != 0 || last != all {
        page.numbered(", columns ", first);
        page.numbered(" to ", last);
        page.numbered(" of ", all);
    }
    write_sentence(page, told);
}

/// Adds a line on a node for those who don't see the picture.
pub(crate) fn write_description<A: Allocator>(page: &mut Page<A>, place: usize, lane: &Lane<A>) {
    page.words("\nnode ");
    page.number(place as u64);
    page.words(": ");
    page.number_of(lane.events as usize, "event");
    page.words(", ");
    page.state(&lane.end);
    if let Some(first_fault) = lane.first_fault {
        page.numbered(", then event ", first_fault.position);
        page.words(" has no step: ");
        page.fault(first_fault.fault);
    }
}
