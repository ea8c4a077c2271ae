ghost use Rattle.std.specs.Prelude.{◌≡◌, ◌≤◌, ◌↔◌, IsTrue, All};
ghost use Rattle.ira_event.specs.RingSize.{IsRingSize};
ghost use Rattle.ira_ring_setup.specs.Setup.{IsForEachNode, HasInitiator, GivesIds, HasCap, HasTerms, KeepsRules};

use ira_event::{MAX_NUMBER, MAX_RECORDS, RingSize};
use std::alloc::Allocator;
use std::marker::Model;

/// What a run of a ring starts from. Anybody may make one, and it may break the rules. These are: each list has a
/// member for each node, some node is an initiator, each draw is in `1..=N`, the cap is in
/// `1..=MAX_RECORDS`, and the terms are in `1..=MAX_NUMBER`.
#[derive(Drop)]
pub struct Setup<A: Allocator> {
    /// How many nodes the ring has.
    pub nodes: RingSize,
    /// Whether each node is an initiator, by place.
    pub initiators: Vec<bool, A>,
    /// The IDs that each node is given to draw, by place, in the order of its draws.
    pub draws: Vec<Vec<u32, A>, A>,
    /// The most records that a node's log may have.
    pub cap: usize,
    /// How many terms there are: each leader but that of the last one yields.
    pub terms: u32,
}

impl<A: Allocator> Model for Setup<A> {
    ghost use Rattle.std.specs.Prelude.{map};
    ghost use Rattle.ira_event.specs.RingSize.{IsRingSize};
    ghost use Rattle.ira_ring_setup.specs.Setup.{Setup};

    ghost Value = { Setup };

    ghost view = { λ a. record {
      nodes = a.nodes;
      initiators = a.initiators.items;
      draws = map
          (λ ids. ids.items) a.draws.items;
      cap = a.cap;
      terms = a.terms;
    } };
}

impl<A: Allocator> Setup<A> {
    /// Whether the setup keeps the rules.
    pub fn keeps_rules(&self) -> bool
        ensures { IsTrue result ↔ KeepsRules self.now }
    {
        self.is_for_each_node()
            && self.has_initiator()
            && self.gives_ids()
            && self.has_cap()
            && self.has_terms()
    }

    fn is_for_each_node(&self) -> bool
        ensures value { IsTrue result ↔ IsForEachNode self.now }
        ensures size { IsRingSize self.now.nodes }
    {
        let nodes = usize::from(self.nodes.get());
        self.initiators.len() == nodes && self.draws.len() == nodes
    }

    fn has_initiator(&self) -> bool
        requires { IsForEachNode self.now }
        ensures { IsTrue result ↔ HasInitiator self.now }
    {
        self.initiators.contains(&true)
    }

    fn gives_ids(&self) -> bool
        requires { IsForEachNode self.now }
        ensures { IsTrue result ↔ GivesIds self.now }
    {
        give_ids(self.nodes, &self.draws)
    }

    fn has_cap(&self) -> bool
        ensures { IsTrue result ↔ HasCap self.now }
    {
        (1..=MAX_RECORDS).contains(&self.cap)
    }

    fn has_terms(&self) -> bool
        ensures { IsTrue result ↔ HasTerms self.now }
    {
        (1..=MAX_NUMBER).contains(&self.terms)
    }
}

/// Whether each number is an ID of the ring.
fn are_ids(nodes: RingSize, ids: &[u32]) -> bool
    ensures { IsTrue result ↔ All (λ d. (1 ≤ d) × (d ≤ nodes)) ids.now }
{
    let most = u32::from(nodes.get());
    ids.iter().all(|id| (1..=most).contains(id))
}

/// Whether each number of each list is an ID of the ring.
fn give_ids<A: Allocator>(nodes: RingSize, draws: &[Vec<u32, A>]) -> bool
    ensures { IsTrue result ↔ All (λ ids. All (λ d. (1 ≤ d) × (d ≤ nodes)) ids.items) draws.now }
{
    draws.iter().all(|ids| are_ids(nodes, ids))
}
