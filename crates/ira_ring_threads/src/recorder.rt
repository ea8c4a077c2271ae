ghost use Rattle.std.specs.Prelude.{◌≡◌, ◌∷◌, ◌++◌, ◌<◌, ◌≤◌, ◌↔◌, [], true, length, vec_capacity, IsTrue, OnOk, IfErr, OnErr};
ghost use Rattle.ira_event.specs.Limits.{MAX_RECORDS};
ghost use Rattle.ira_event.specs.Event.{is_event};
ghost use Rattle.ira_event.specs.RingSize.{FitsVersion};
ghost use Rattle.ira_event.specs.Version.{IsVersion};
ghost use Rattle.ira_node.specs.NodeState.{first_state};
ghost use Rattle.ira_node.specs.NodeStep.{NodeStep};
ghost use Rattle.ira_ring_threads.specs.Recorder.{Recorder, IsRecorder, RecordFaultOf};

use crate::record_fault::RecordFault;
use ira_event::{Event, NodeLog, RingSize};
use ira_node::NodeState;
use std::alloc::Allocator;
use std::marker::Model;

/// The log of a node while it grows, at most to a cap, and the state that its events led to.
#[derive(Drop)]
pub struct Recorder<A: Allocator> {
    version: u8,
    nodes: RingSize,
    place: u8,
    initiator: bool,
    cap: usize,
    state: NodeState,
    events: Vec<Event, A>,
}

impl<A: Allocator> Model for Recorder<A> {
    ghost use Rattle.std.specs.Prelude.{◌≤◌, vec_capacity};
    ghost use Rattle.ira_ring_threads.specs.Recorder.{Recorder, IsRecorder};

    ghost Value = { Recorder };

    ghost view = { λ a. record {
      log = record {
        version = a.version;
        nodes = a.nodes;
        place = a.place;
        initiator = a.initiator;
        events = a.events.items;
      };
      cap = a.cap;
      state = a.state;
    } };

    ghost invariant = { λ a. IsRecorder
        (record {
          log = record {
            version = a.version;
            nodes = a.nodes;
            place = a.place;
            initiator = a.initiator;
            events = a.events.items;
          };
          cap = a.cap;
          state = a.state;
        }) × (a.cap ≤ vec_capacity a.events) };
}

impl<A: Allocator> Recorder<A> {
    /// The log of a node without events, which are to be kept in the empty `room`.
    pub fn new(
        version: u8,
        nodes: RingSize,
        place: u8,
        initiator: bool,
        cap: usize,
        room: Vec<Event, A>,
    ) -> Recorder<A>
        requires version { IsVersion version × FitsVersion version nodes }
        requires place { place < nodes }
        requires room { (cap ≤ MAX_RECORDS) × (room.items ≡ []) × (cap ≤ vec_capacity room) }
        ensures { result
            ≡ record {
              log = record {
                version = version;
                nodes = nodes;
                place = place;
                initiator = initiator;
                events = [];
              };
              cap = cap;
              state = first_state initiator;
            } }
    {
        Recorder {
            version,
            nodes,
            place,
            initiator,
            cap,
            state: NodeState::first(initiator),
            events: room,
        }
    }

    /// The node's place on the ring.
    pub fn place(&self) -> u8
        ensures { result ≡ self.now.log.place }
    {
        self.place
    }

    pub fn state(&self) -> NodeState
        ensures value { result ≡ self.now.state }
        ensures valid { IsRecorder self.now }
    {
        self.state
    }

    pub fn is_full(&self) -> bool
        ensures { IsTrue result ↔ (length self.now.log.events ≡ self.now.cap) }
    {
        self.events.len() == self.cap
    }

    /// Adds the event where it has a step and the log's version has it.
    pub fn record(&mut self, event: Event) -> Result<(), RecordFault>
        requires { (length self.old.log.events < self.old.cap) × (is_event event ≡ true) }
        ensures cap { self.new.cap ≡ self.old.cap }
        ensures ok { OnOk result
            (self.new.log ≡ record self.old.log { events = self.old.log.events ++ event ∷ [] }) }
        ensures step { OnOk result (NodeStep self.old.log.nodes self.old.state event self.new.state) }
        ensures err { IfErr result (RecordFaultOf self.old event) }
        ensures unchanged { OnErr result (self.new ≡ self.old) }
    {
        let Ok(state) = self.state.step(self.nodes, &event) else {
            return Err(RecordFault::NoStep);
        };
        if !event.is_of_version(self.version) {
            return Err(RecordFault::OtherVersion);
        }
        self.state = state;
        self.events.push_reserved(event);
        Ok(())
    }

    pub fn into_log(self) -> NodeLog<A>
        ensures { result ≡ self.log }
    {
        let Recorder {
            version,
            nodes,
            place,
            initiator,
            cap: _,
            state: _,
            events,
        } = self;
        let Some(log) = NodeLog::new(version, nodes, place, initiator, events) else {
            unreachable!()
        };
        log
    }
}
