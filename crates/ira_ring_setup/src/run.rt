ghost use Rattle.std.specs.Prelude.{◌≡◌};
ghost use Rattle.ira_ring_setup.specs.Run.{IsRun};

use crate::node_end::NodeEnd;
use ira_event::Logs;
use std::alloc::Allocator;
use std::marker::Model;

/// What the nodes of a ring wrote down, and how each of them ended.
#[derive(Drop)]
pub struct Run<A: Allocator> {
    logs: Logs<A>,
    ends: Vec<NodeEnd, A>,
}

impl<A: Allocator> Model for Run<A> {
    ghost use Rattle.ira_ring_setup.specs.Run.{Run, IsRun};

    ghost Value = { Run };

    ghost view = { λ a. record { logs = a.logs; ends = a.ends.items } };

    ghost invariant = { λ a. IsRun (record { logs = a.logs; ends = a.ends.items }) };
}

impl<A: Allocator> Run<A> {
    /// The run of these logs and ends, which are known to be as many as the ring has nodes.
    pub fn of_parts(logs: Logs<A>, ends: Vec<NodeEnd, A>) -> Run<A>
        requires { IsRun (record { logs = logs; ends = ends.items }) }
        ensures { result ≡ record { logs = logs; ends = ends.items } }
    {
        Run { logs, ends }
    }

    /// What the nodes wrote down.
    pub fn logs(&self) -> &Logs<A>
        ensures value { result.now ≡ self.now.logs }
        ensures valid { IsRun self.now }
    {
        &self.logs
    }

    /// How the nodes ended, in the order of their places.
    pub fn ends(&self) -> &[NodeEnd]
        ensures value { result.now ≡ self.now.ends }
        ensures valid { IsRun self.now }
    {
        &self.ends
    }
}
