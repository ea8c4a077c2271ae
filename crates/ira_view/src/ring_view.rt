use crate::view::View;
use ira_view_election::Election;
use std::alloc::Allocator;

/// What is told of the texts of a ring's logs: their answer, and why it is so; of good logs also how the election
/// stands when they end.
#[derive(Drop)]
pub struct RingView<A: Allocator> {
    pub view: View<A>,
    pub election: Option<Election<A>>,
}
