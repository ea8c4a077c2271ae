use ira_links::{LinkIn, LinkOut};
use ira_ring_setup::NodePart;
use std::alloc::Allocator;
use std::marker::Model;

/// What the thread of a node gives back.
#[derive(Drop)]
pub struct FinishedNode<A: Allocator> {
    pub(crate) part: NodePart<A>,
    pub(crate) input: LinkIn<A>,
    pub(crate) output: LinkOut<A>,
}

impl<A: Allocator> Model for FinishedNode<A> {
    ghost use Rattle.ira_ring_threads.specs.FinishedNode.{FinishedNode};

    ghost Value = { FinishedNode };

    ghost view = { λ a. record {
      place = a.part.place;
      log = a.part.log;
      end = a.part.end;
      input = a.input;
      output = a.output;
    } };
}
