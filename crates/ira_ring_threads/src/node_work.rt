ghost use Rattle.std.specs.Prelude.{◌≡◌, ◌<◌, ◌≤◌, [], vec_capacity};
ghost use Rattle.std.specs.List.{All};
ghost use Rattle.ira_event.specs.Limits.{MAX_NUMBER, MAX_RECORDS};

use ira_event::{Event, RingSize};
use ira_links::{LinkIn, LinkOut};
use std::alloc::Allocator;

/// What the thread of one node is given.
#[derive(Drop)]
pub struct NodeWork<'a, A: Allocator> {
    pub nodes: RingSize,
    pub place: u8,
    pub initiator: bool,
    /// The IDs that it draws, in the order of its draws.
    pub draws: &'a [u32],
    /// The room for its log.
    pub room: Vec<Event, A>,
    /// The most records that its log may have.
    pub cap: usize,
    /// How many terms there are: where it leads in one before the last, it yields.
    pub terms: u32,
    pub input: LinkIn<A>,
    pub output: LinkOut<A>,
    pub ghost is_place: { place < nodes },
    pub ghost are_ids: { All (λ d. (1 ≤ d) × (d ≤ nodes)) draws.now },
    pub ghost is_cap: { (1 ≤ cap) × (cap ≤ MAX_RECORDS) },
    pub ghost are_terms: { (1 ≤ terms) × (terms ≤ MAX_NUMBER) },
    pub ghost has_room: { (room.items ≡ []) × (cap ≤ vec_capacity room) },
}
