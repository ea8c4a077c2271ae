ghost use Rattle.std.specs.Prelude.{◌≡◌, IfOk};
ghost use Rattle.ira_ring.specs.SeededRing.{setup_of};
ghost use Rattle.ira_commands.specs.AskedRun.{ring_of};

use ira_event::{OutOfMemory, RingSize};
use ira_ring::{SeededRing, Setup, draw_lists};
use std::alloc::Allocator;

/// A run that is asked for: a ring whose first nodes are initiators and whose nodes draw from a seed.
#[derive(Clone, Copy)]
pub struct AskedRun {
    /// How many nodes the ring is to have: any number, and not only a ring's size.
    pub nodes: u64,
    /// How many nodes are initiators, from place 0 on.
    pub initiators: u64,
    pub seed: u64,
    /// How many IDs each node is given to draw.
    pub draws: u32,
    /// The most records that a log may have.
    pub cap: u64,
    /// How many terms there are.
    pub terms: u64,
}

impl AskedRun {
    /// The ring of it, which has this size.
    pub(crate) fn ring(&self, nodes: RingSize) -> SeededRing
        requires { nodes ≡ self.now.nodes }
        ensures { result ≡ ring_of self.now }
    {
        SeededRing {
            nodes,
            initiators: self.initiators,
            seed: self.seed,
            draws: self.draws,
            cap: self.cap,
            terms: self.terms,
        }
    }

    /// The setup of the ring, which has this size and so many terms.
    pub(crate) fn setup<A: Allocator + Clone>(
        &self,
        alloc: A,
        nodes: RingSize,
        terms: u32,
    ) -> Result<Setup<A>, OutOfMemory>
        requires size { nodes ≡ self.now.nodes }
        requires terms { terms ≡ self.now.terms }
        ensures { IfOk result (λ setup. setup ≡ setup_of (ring_of self.now)) }
    {
        Ok(Setup {
            nodes,
            initiators: self.ring(nodes).initiators(alloc.clone()?)?,
            draws: draw_lists(alloc, nodes, self.seed, self.draws)?,
            cap: self.cap as usize,
            terms,
        })
    }
}
