ghost use Rattle.std.specs.Prelude.{◌≡◌, ◌<◌, length};
ghost use Rattle.std.specs.Option.{option_and_then};
ghost use Rattle.ira_order.specs.Ring.{log_of, numbered};
ghost use Rattle.ira_view_picture.specs.Arrow.{load_in};

use ira_event::{Event, Load, Logs};
use std::alloc::Allocator;

/// What an event sends or receives.
fn load_of(event: Event) -> Option<Load>
    ensures { result ≡ load_in event }
{
    match event {
        Event::Sent(load) | Event::Got(load) => Some(load),
        Event::Draw(_) | Event::Yield => None,
    }
}

/// What an event of a place sends or receives.
pub(crate) fn load_at<L: Allocator>(logs: &Logs<L>, place: u8, position: u32) -> Option<Load>
    requires { place < length logs.now }
    ensures { result ≡ option_and_then load_in (numbered (log_of logs.now place) position) }
{
    let log = logs.log(place);
    if position >= 1 && position as usize <= log.len() {
        load_of(log.event(position))
    } else {
        None
    }
}
