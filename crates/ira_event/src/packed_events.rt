ghost use Rattle.std.specs.Prelude.{◌≡◌, ◌++◌, ◌∷◌, [], true, IfOk, OnOk, OnErr};
ghost use Rattle.ira_event.specs.Event.{is_event};

use crate::event::Event;
use crate::limits::MAX_RECORDS;
use crate::out_of_memory::OutOfMemory;
use crate::packed_event::PackedEvent;
use crate::records::Records;
use std::alloc::Allocator;
use std::marker::Model;

/// The events of a log that is being made, in eight bytes each. Contracts see their list.
#[derive(Drop)]
pub struct PackedEvents<A: Allocator> {
    events: Vec<PackedEvent, A>,
}

impl<A: Allocator> Model for PackedEvents<A> {
    ghost use Rattle.std.specs.Prelude.{List};
    ghost use Rattle.ira_event.specs.declared.event.Event.{Event};

    ghost Value = { List Event };

    ghost view = { λ p. p.events.items };
}

impl<A: Allocator> PackedEvents<A> {
    /// No events, and room for about as many as the records have that weren't read yet.
    pub fn with_room_for(alloc: A, records: &Records<'_>) -> Result<PackedEvents<A>, OutOfMemory>
        ensures { IfOk result (λ events. events ≡ []) }
    {
        // Most lines have more than 16 bytes, and a page that no event touches costs nothing.
        let room = (records.unread() / 16).min(MAX_RECORDS);
        PackedEvents::with_capacity(alloc, room)
    }

    /// No events, and room for so many.
    pub(crate) fn with_capacity(alloc: A, room: usize) -> Result<PackedEvents<A>, OutOfMemory>
        ensures { IfOk result (λ events. events ≡ []) }
    {
        Ok(PackedEvents {
            events: Vec::with_capacity(alloc, room)?,
        })
    }

    /// Adds an event at the end.
    #[inline(always)]
    pub fn push(&mut self, event: Event) -> Result<(), OutOfMemory>
        requires { is_event event ≡ true }
        ensures ok { OnOk result (self.new ≡ self.old ++ event ∷ []) }
        ensures err { OnErr result (self.new ≡ self.old) }
    {
        self.events.push(PackedEvent::new(event))?;
        Ok(())
    }

    /// The list, still packed.
    pub(crate) fn into_list(self) -> Vec<PackedEvent, A>
        ensures { result.items ≡ self }
    {
        self.events
    }
}
