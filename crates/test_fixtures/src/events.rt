//! The events of worked elections, as a node records them.

use ira_event::{Event, Load, Msg};

/// A clean message.
pub const fn clean(round: u32, id: u32, hop: u32) -> Load {
    Load::Msg(Msg {
        round,
        id,
        hop,
        dirty: false,
    })
}

/// A dirty one.
pub const fn dirty(round: u32, id: u32, hop: u32) -> Load {
    Load::Msg(Msg {
        round,
        id,
        hop,
        dirty: true,
    })
}

/// The events of node 0 of `ELECTION`.
pub fn winner() -> [Event; 4] {
    [
        Event::Draw(2),
        Event::Sent(clean(1, 2, 1)),
        Event::Got(clean(1, 1, 1)),
        Event::Got(clean(1, 2, 2)),
    ]
}

/// The events of node 1 of `ELECTION`.
pub fn loser() -> [Event; 4] {
    [
        Event::Draw(1),
        Event::Sent(clean(1, 1, 1)),
        Event::Got(clean(1, 2, 1)),
        Event::Sent(clean(1, 2, 2)),
    ]
}

/// The events of node 0 of `SECOND_TERM`.
pub fn yielder() -> [Event; 11] {
    [
        Event::Draw(2),
        Event::Sent(clean(1, 2, 1)),
        Event::Got(clean(1, 1, 1)),
        Event::Got(clean(1, 2, 2)),
        Event::Yield,
        Event::Sent(Load::Reset(1)),
        Event::Got(Load::Reset(2)),
        Event::Draw(1),
        Event::Sent(clean(1, 1, 1)),
        Event::Got(clean(1, 2, 1)),
        Event::Sent(clean(1, 2, 2)),
    ]
}

/// The events of node 1 of `SECOND_TERM`.
pub fn next_leader() -> [Event; 10] {
    [
        Event::Draw(1),
        Event::Sent(clean(1, 1, 1)),
        Event::Got(clean(1, 2, 1)),
        Event::Sent(clean(1, 2, 2)),
        Event::Got(Load::Reset(1)),
        Event::Sent(Load::Reset(2)),
        Event::Draw(2),
        Event::Sent(clean(1, 2, 1)),
        Event::Got(clean(1, 1, 1)),
        Event::Got(clean(1, 2, 2)),
    ]
}
