ghost use Rattle.std.specs.Prelude.{◌≡◌, ◌≤◌, ◌-◌, ◌↔◌, ℕ, Some, length, IsSome, IfSome, slice_get};
ghost use Rattle.std.specs.List.{list_all};
ghost use Rattle.ira_event.specs.Event.{is_event, is_of_version};
ghost use Rattle.ira_event.specs.Log.{Log, IsLog};
ghost use Rattle.ira_event.specs.LogText.{head_of};

use crate::event::Event;
use crate::events::Events;
use crate::limits::{MAX_RECORDS, MAX_VERSION};
use crate::log_head::LogHead;
use crate::packed_events::PackedEvents;
use crate::ring_size::RingSize;
use crate::stored_events::StoredEvents;
use std::alloc::Allocator;
use std::marker::Model;

/// What one node of a ring wrote down: the version of its log, the ring's size, the node's place, whether it is an initiator,
/// and its events in their order, at most `MAX_RECORDS` of them.
#[derive(Drop)]
pub struct NodeLog<A: Allocator> {
    head: LogHead,
    events: StoredEvents<A>,
}

impl<A: Allocator> Model for NodeLog<A> {
    ghost use Rattle.ira_event.specs.Log.{Log, IsLog};

    ghost Value = { Log };

    ghost view = { λ a. record {
      version = a.head.version;
      nodes = a.head.nodes;
      place = a.head.place;
      initiator = a.head.initiator;
      events = a.events;
    } };

    ghost invariant = { λ a. IsLog
        (record {
          version = a.head.version;
          nodes = a.head.nodes;
          place = a.head.place;
          initiator = a.head.initiator;
          events = a.events;
        }) };
}

fn are_in_range(events: &[Event]) -> bool
    ensures { result ≡ list_all is_event events.now }
{
    events.iter().all(Event::is_in_range)
}

/// Whether a log of this version may have each of these events.
fn are_of_version(version: u8, events: &[Event]) -> bool
    ensures { result ≡ list_all (is_of_version version) events.now }
{
    events.iter().all(|event| event.is_of_version(version))
}

impl<A: Allocator> NodeLog<A> {
    /// The log of these events, or `None` where there is no such version, the place is outside the ring,
    /// there are too many events, a number is outside `1..=MAX_NUMBER`, or a log of version 1 had a yield
    /// or a reset, or a ring of more than `MAX_VERSION_1_NODES`.
    pub fn new(
        version: u8,
        nodes: RingSize,
        place: u8,
        initiator: bool,
        events: Vec<Event, A>,
    ) -> Option<NodeLog<A>>
        ensures some { IsSome result
            ↔ IsLog (record {
              version = version;
              nodes = nodes;
              place = place;
              initiator = initiator;
              events = events.items;
            }) }
        ensures value { IfSome result
            (λ log. log
            ≡ record {
              version = version;
              nodes = nodes;
              place = place;
              initiator = initiator;
              events = events.items;
            }) }
    {
        if !(1..=MAX_VERSION).contains(&version) || place >= nodes.get() {
            return None;
        }
        if !nodes.fits_version(version) {
            return None;
        }
        if events.len() > MAX_RECORDS
            || !are_in_range(&events)
            || !are_of_version(version, &events)
        {
            return None;
        }
        Some(NodeLog::of_parts(version, nodes, place, initiator, events))
    }

    /// The log of these parts, which are known to be in range.
    pub fn of_parts(
        version: u8,
        nodes: RingSize,
        place: u8,
        initiator: bool,
        events: Vec<Event, A>,
    ) -> NodeLog<A>
        requires { IsLog
            (record {
              version = version;
              nodes = nodes;
              place = place;
              initiator = initiator;
              events = events.items;
            }) }
        ensures { result
            ≡ record {
              version = version;
              nodes = nodes;
              place = place;
              initiator = initiator;
              events = events.items;
            } }
    {
        NodeLog {
            head: LogHead {
                version,
                nodes,
                place,
                initiator,
            },
            events: StoredEvents::plain(events),
        }
    }

    /// The log of this head and these events, which are known to be in range.
    pub fn of_records(head: LogHead, events: PackedEvents<A>) -> NodeLog<A>
        requires { IsLog
            (record {
              version = head.version;
              nodes = head.nodes;
              place = head.place;
              initiator = head.initiator;
              events = events;
            }) }
        ensures { result
            ≡ record {
              version = head.version;
              nodes = head.nodes;
              place = head.place;
              initiator = head.initiator;
              events = events;
            } }
    {
        NodeLog {
            head,
            events: StoredEvents::packed(events.into_list()),
        }
    }

    /// What the head of its text says.
    pub fn head(&self) -> LogHead
        ensures { result ≡ head_of self.now }
    {
        self.head
    }

    /// The version of the log, 1 or 2.
    pub fn version(&self) -> u8
        ensures value { result ≡ self.now.version }
        ensures valid { IsLog self.now }
    {
        self.head.version
    }

    pub fn nodes(&self) -> RingSize
        ensures { result ≡ self.now.nodes }
    {
        self.head.nodes
    }

    /// The node's place on the ring, from 0.
    pub fn place(&self) -> u8
        ensures value { result ≡ self.now.place }
        ensures valid { IsLog self.now }
    {
        self.head.place
    }

    pub fn initiator(&self) -> bool
        ensures { result ≡ self.now.initiator }
    {
        self.head.initiator
    }

    /// How many events there are.
    pub fn len(&self) -> usize
        ensures value { result ≡ length self.now.events }
        ensures valid { IsLog self.now }
    {
        self.events.len()
    }

    /// Event number `k`, counted from 1.
    #[inline(always)]
    pub fn event(&self, k: u32) -> Event
        requires { (1 ≤ k) × (k ≤ length self.now.events) }
        ensures { slice_get self.now.events (k - 1) ≡ Some result }
    {
        self.events.event(k)
    }

    /// The events from the first to the last.
    pub fn events(&self) -> Events<'_>
        ensures list { result ≡ self.now.events }
        ensures valid { IsLog self.now }
    {
        self.events.iter()
    }
}
