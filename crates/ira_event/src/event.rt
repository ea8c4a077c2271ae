ghost use Rattle.std.specs.Prelude.{◌≡◌};
ghost use Rattle.ira_event.specs.Event.{is_event, is_later, is_of_version as version_test};

use crate::limits::is_number;
use crate::load::Load;

/// One record of a node's log.
#[derive(Clone, Copy, Debug, PartialEq, Eq)]
pub enum Event {
    /// The node drew an ID.
    Draw(u32),
    /// The node put a load on its outgoing link.
    Sent(Load),
    /// The node took a load from its incoming link.
    Got(Load),
    /// The node led, and yielded.
    Yield,
}

impl Event {
    /// Whether a record may hold each number of the event.
    pub(crate) fn is_in_range(&self) -> bool
        ensures { result ≡ is_event self.now }
    {
        match self {
            Event::Draw(id) => is_number(*id),
            Event::Sent(load) | Event::Got(load) => load.is_in_range(),
            Event::Yield => true,
        }
    }

    /// Whether it is an event of version 2 alone: a yield, or one of a reset.
    fn is_later(&self) -> bool
        ensures { result ≡ is_later self.now }
    {
        match self {
            Event::Yield | Event::Sent(Load::Reset(_)) | Event::Got(Load::Reset(_)) => true,
            Event::Draw(_) | Event::Sent(Load::Msg(_)) | Event::Got(Load::Msg(_)) => false,
        }
    }

    /// Whether a log of this version may have the event.
    pub fn is_of_version(&self, version: u8) -> bool
        ensures { result ≡ version_test version self.now }
    {
        !self.is_later() || version > 1
    }
}

const _: () = prove!(size_of::<Event>() <= 24);
