ghost use Rattle.std.specs.Prelude.{◌≡◌, ◌+◌, ◌<◌, MatchOption, codes, slice_get};
ghost use Rattle.ira_order.specs.Ring.{log_of, numbered};
ghost use Rattle.ira_view_page.specs.Places.{IsLineOfEvent};

use crate::named_text::NamedText;
use ira_event::{Event, Logs, NodeLog};
use ira_order::EventAt;
use std::alloc::Allocator;

/// How many lines stand in front of a log's first record.
const HEAD_LINES: usize = 4;

/// The line of a log's text that an event stands on, both counted from 1.
pub fn line_of(position: u32) -> usize
    ensures value { result ≡ position + 4 }
    ensures line { IsLineOfEvent position result }
{
    position as usize + HEAD_LINES
}

/// The name of the file of a place; a dash where there is none.
pub fn file_of<'a>(files: &[NamedText<'a>], place: u8) -> &'a str
    ensures { MatchOption (slice_get files.now place) (result.now ≡ codes "-") (λ file. result.now ≡ file.name.now) }
{
    match files.get(usize::from(place)) {
        Some(file) => file.name,
        None => "-",
    }
}

/// An event of a log, counted from 1, where it has so many.
pub fn event_of<A: Allocator>(log: &NodeLog<A>, position: u32) -> Option<Event>
    ensures { result ≡ numbered log.now.events position }
{
    if position < 1 || position as usize > log.len() {
        return None;
    }
    Some(log.event(position))
}

/// The log of a place, where there is one.
pub fn log_at<A: Allocator>(logs: &Logs<A>, place: u8) -> Option<&NodeLog<A>>
    ensures { MatchOption result (slice_get logs.now place ≡ None) (λ log. slice_get logs.now place ≡ Some log.now) }
{
    if place >= logs.size().get() {
        return None;
    }
    Some(logs.log(place))
}

/// An event of logs, where they have it.
pub fn event_at<A: Allocator>(logs: &Logs<A>, at: EventAt) -> Option<Event>
    ensures { result ≡ numbered (log_of logs.now at.place) at.position }
{
    event_of(log_at(logs, at.place)?, at.position)
}
