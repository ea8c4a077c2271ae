ghost use Rattle.std.specs.Prelude.{ℕ};
ghost use Rattle.ira_view_show.specs.EventParts.{change_part, number_in, sender_part};
ghost use Rattle.ira_view_page.specs.Page.{Added};

use crate::change::Change;
use ira_event::{Event, Load, Logs};
use ira_view_page::{Emphasis, Page};
use ira_view_trail::TrailStep;
use itoa::Buffer;
use std::alloc::Allocator;

/// How many digits a number has.
fn digits(number: usize) -> usize {
    Buffer::new().format(number).len()
}

/// How many characters a load has.
fn load_width(load: Load) -> usize {
    match load {
        Load::Msg(message) => digits(message.round as usize)
            .saturating_add(digits(message.id as usize))
            .saturating_add(digits(message.hop as usize))
            .saturating_add("   dirty".len()),
        Load::Reset(hop) => digits(hop as usize).saturating_add("reset ".len()),
    }
}

/// How many characters an event's record has.
fn record_width(event: Event) -> usize {
    let word = "send ".len();
    match event {
        Event::Draw(id) => digits(id as usize).saturating_add(word),
        Event::Sent(load) | Event::Got(load) => load_width(load).saturating_add(word),
        Event::Yield => word,
    }
}

/// How wide the columns are of the lines that tell events.
#[derive(Clone, Copy)]
pub(crate) struct EventColumns {
    step: usize,
    place: usize,
    event: usize,
    record: usize,
}

/// Adds a number at the end of a column that is so wide.
fn show_number<P: Allocator>(page: &mut Page<P>, width: usize, number: u64)
    ensures { Added page.old (number_in width number) page.new }
{
    let mut buffer = Buffer::new();
    page.spaces(width.saturating_sub(buffer.format(number).len()));
    page.number(number);
}

/// Adds the step of the sending that was received, where there is one, after so many spaces.
fn show_sender<P: Allocator>(page: &mut Page<P>, room: usize, sent_by: Option<u32>)
    ensures { Added page.old (sender_part room sent_by) page.new }
{
    if let Some(sender) = sent_by {
        page.spaces(room);
        page.words("  of step ");
        page.number(sender as u64);
    }
}

/// Adds what an event changed, where there are words for it, after so many spaces.
fn show_change<P: Allocator>(page: &mut Page<P>, room: usize, change: Change)
    ensures { Added page.old (change_part room change) page.new }
{
    if let Change::Paid = change {
        return;
    }
    page.spaces(room);
    page.words("  ");
    change.print(page);
}

impl EventColumns {
    ghost use Rattle.ira_view_show.specs.EventLine.{event_line_text, numbers_text};

    /// Those with room for each event of the logs, of which there are so many.
    pub(crate) fn of<A: Allocator>(logs: &Logs<A>, events: usize) -> EventColumns {
        let size = logs.size().get();
        let mut longest = 0;
        let mut widest = 0;
        for place in 0..size {
            let log = logs.log(place);
            longest = log.len().max(longest);
            for event in log.events() {
                widest = record_width(event).max(widest);
            }
        }
        EventColumns {
            step: digits(events),
            place: digits(usize::from(size - 1)),
            event: digits(longest),
            record: widest,
        }
    }

    /// Adds the numbers of an event, which is step `number` of a trail.
    fn print_numbers<P: Allocator>(&self, page: &mut Page<P>, number: usize, step: TrailStep)
        ensures { Added page.old (numbers_text self.now number step) page.new }
    {
        show_number(page, self.step, number as u64);
        page.words("  node ");
        show_number(page, self.place, step.place as u64);
        page.words("  event ");
        show_number(page, self.event, step.event as u64);
        page.words("  ");
    }

    /// Adds the line of an event, which is step `number` of a trail, with what it changed.
    pub(crate) fn print<P: Allocator>(
        &self,
        page: &mut Page<P>,
        number: usize,
        step: TrailStep,
        event: Event,
        change: Change,
    )
        ensures { (room gap : ℕ) × Added page.old
            (event_line_text self.now number step event room gap change) page.new }
    {
        let room = self.record.saturating_sub(record_width(event));
        page.begin(Emphasis::Plain);
        self.print_numbers(page, number, step);
        page.event(event);
        show_sender(page, room, step.sent_by);
        show_change(page, self.room_after(room, step.sent_by), change);
        page.end();
    }

    /// How many spaces stand before what an event changed, where so many stand after its record.
    fn room_after(&self, room: usize, sent_by: Option<u32>) -> usize {
        match sent_by {
            Some(sender) => self.step.saturating_sub(digits(sender as usize)),
            None => room
                .saturating_add("  of step ".len())
                .saturating_add(self.step),
        }
    }
}
