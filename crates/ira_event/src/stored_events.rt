ghost use Rattle.std.specs.Prelude.{◌≡◌, ◌≤◌, ◌-◌, Some, true, length, slice_get};
ghost use Rattle.std.specs.List.{list_all};
ghost use Rattle.ira_event.specs.Event.{is_event};

use crate::event::Event;
use crate::events::Events;
use crate::packed_event::PackedEvent;
use std::alloc::Allocator;
use std::marker::Model;

/// The events of a log, plain as they were handed in, or packed as they were read. Contracts see their
/// list.
#[derive(Drop)]
pub(crate) struct StoredEvents<A: Allocator> {
    form: Form<A>,
}

#[derive(Drop)]
enum Form<A: Allocator> {
    Plain(Vec<Event, A>),
    Packed(Vec<PackedEvent, A>),
}

impl<A: Allocator> Model for StoredEvents<A> {
    ghost use Rattle.std.specs.Prelude.{List};
    ghost use Rattle.ira_event.specs.declared.event.Event.{Event};
    ghost use Rattle.ira_event.specs.StoredEvents.{events_of};

    ghost Value = { List Event };

    ghost view = { λ s. events_of s.form };
}

impl<A: Allocator> StoredEvents<A> {
    pub(crate) fn plain(events: Vec<Event, A>) -> StoredEvents<A>
        ensures { result ≡ events.items }
    {
        StoredEvents {
            form: Form::Plain(events),
        }
    }

    pub(crate) fn packed(events: Vec<PackedEvent, A>) -> StoredEvents<A>
        ensures { result ≡ events.items }
    {
        StoredEvents {
            form: Form::Packed(events),
        }
    }

    pub(crate) fn len(&self) -> usize
        ensures { result ≡ length self.now }
    {
        match &self.form {
            Form::Plain(events) => events.len(),
            Form::Packed(events) => events.len(),
        }
    }

    /// Event number `k`, counted from 1.
    #[inline(always)]
    pub(crate) fn event(&self, k: u32) -> Event
        requires { (1 ≤ k) × (k ≤ length self.now) }
        ensures { slice_get self.now (k - 1) ≡ Some result }
    {
        match &self.form {
            Form::Plain(events) => events[k as usize - 1],
            Form::Packed(events) => events[k as usize - 1].get(),
        }
    }

    pub(crate) fn iter(&self) -> Events<'_>
        requires { list_all is_event self.now ≡ true }
        ensures { result ≡ self.now }
    {
        match &self.form {
            Form::Plain(events) => Events::of_plain(events),
            Form::Packed(events) => Events::of_packed(events),
        }
    }
}
