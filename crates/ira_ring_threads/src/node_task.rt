ghost use Rattle.std.specs.Prelude.{◌≡◌, ◌<◌, [], IfOk};
ghost use Rattle.ira_ring_setup.specs.Setup.{KeepsRules};
ghost use Rattle.ira_ring_threads.specs.TaskPromise.{promise_of};
ghost use Rattle.ira_ring_threads.specs.FinishedNode.{KeepsPromise};

use crate::finished_node::FinishedNode;
use crate::node_thread::node_body;
use crate::node_work::NodeWork;
use ira_event::Event;
use ira_links::{Closed, Frame, Gate, LinkIn, LinkOut};
use ira_ring_setup::Setup;
use std::alloc::{AllocError, Allocator};
use std::marker::Model;
use std::sync::Wait;
use std::time::Clock;

/// What the thread of a node is to own: the place of the node, the room for its log, and its ends of two
/// new links. It names no lifetime, since nothing would be known of what the thread of a closure gives
/// that captures a value which does.
#[derive(Drop)]
pub struct NodeTask<A: Allocator> {
    pub(crate) place: u8,
    pub(crate) cap: usize,
    pub(crate) room: Vec<Event, A>,
    pub(crate) input: LinkIn<A>,
    pub(crate) output: LinkOut<A>,
}

impl<A: Allocator> Model for NodeTask<A> {
    ghost use Rattle.std.specs.Prelude.{◌≡◌, ◌≤◌, [], vec_capacity};
    ghost use Rattle.ira_ring_threads.specs.NodeTask.{NodeTask};

    ghost Value = { NodeTask };

    ghost view = { λ a. record {
      place = a.place;
      cap = a.cap;
      input = a.input.link;
      output = a.output.link;
    } };

    ghost invariant = { λ a. (a.room.items ≡ []) × (a.cap ≤ vec_capacity a.room) × (a.input.frames ≡ [])
        × (a.output.frames ≡ []) };
}

impl<A: Allocator> NodeTask<A> {
    /// A task for a node at this place, whose log is to have at most `cap` events.
    pub(crate) fn new(
        alloc: A,
        cap: usize,
        place: u8,
        input: LinkIn<A>,
        output: LinkOut<A>,
    ) -> Result<NodeTask<A>, AllocError>
        requires fresh { (input.frames ≡ []) × (output.frames ≡ []) }
        ensures { IfOk result
            (λ task. task ≡ record { place = place; cap = cap; input = input.link; output = output.link }) }
    {
        Ok(NodeTask {
            place,
            cap,
            room: Vec::with_capacity(alloc, cap)?,
            input,
            output,
        })
    }

    /// Runs the node of the task.
    pub(crate) fn run<R: Wait + Clock, G: Gate>(
        self,
        rt: &R,
        setup: &Setup<A>,
        gate: &G,
    ) -> Result<FinishedNode<A>, Closed>
        requires rules { KeepsRules setup.now }
        requires place { self.place < setup.now.nodes }
        requires cap { self.cap ≡ setup.now.cap }
        ensures { IfOk result (KeepsPromise (promise_of setup.now self)) }
    {
        let NodeTask {
            place,
            cap,
            room,
            input,
            output,
        } = self;
        let work = NodeWork {
            nodes: setup.nodes,
            place,
            initiator: setup.initiators[usize::from(place)],
            draws: &setup.draws[usize::from(place)],
            room,
            cap,
            terms: setup.terms,
            input,
            output,
        };
        let (part, input, output) = node_body(rt, work, gate)?;
        Ok(FinishedNode {
            part,
            input,
            output,
        })
    }

    /// Puts one `Stop` on the link that the task writes, and drops the task.
    pub(crate) fn stop<R: Wait>(self, rt: &R) {
        let NodeTask { mut output, .. } = self;
        let _refused = output.put(rt, Frame::Stop);
    }
}
