use crate::node_end::NodeEnd;
use ira_event::NodeLog;
use std::alloc::Allocator;

/// What one node gives of a run: its log and its end, and the place on the ring that they are for.
#[derive(Drop)]
pub struct NodePart<A: Allocator> {
    pub place: u8,
    pub log: NodeLog<A>,
    pub end: NodeEnd,
}
