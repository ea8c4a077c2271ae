ghost use Rattle.std.specs.Prelude.{◌≡◌};
ghost use Rattle.std.specs.List.Sorted.{IsStrictlyIncreasing};

use ira_cand::Ahead;
use ira_cert::{ListedCandidates, Positions};
use std::alloc::Allocator;
use std::marker::Model;

/// The candidates of a node that a case asks, all of them.
#[derive(Drop)]
pub(crate) struct CandidateTable<'t, A: Allocator> {
    place: u8,
    positions: Positions<'t, A>,
}

impl<'t, A: Allocator> Model for CandidateTable<'t, A> {
    ghost use Rattle.std.specs.List.Sorted.{IsStrictlyIncreasing};
    ghost use Rattle.ira_par.specs.CandidateTable.{CandidateTable};

    ghost Value = { CandidateTable };

    ghost view = { λ t. record { place = t.place; positions = t.positions } };

    ghost invariant = { λ t. IsStrictlyIncreasing t.positions };
}

impl<'t, A: Allocator> CandidateTable<'t, A> {
    /// The candidates of the node at the place, which are at these positions.
    pub(crate) fn new(place: u8, positions: Positions<'t, A>) -> CandidateTable<'t, A>
        requires { IsStrictlyIncreasing positions }
        ensures { result ≡ record { place = place; positions = positions.entry } }
    {
        CandidateTable { place, positions }
    }

    /// The place of the node.
    pub(crate) fn place(&self) -> u8
        ensures { result ≡ self.now.place }
    {
        self.place
    }

    /// How many candidates there are.
    pub(crate) fn len(&self) -> usize {
        self.positions.as_slice().len()
    }

    /// The candidates, none of which is taken yet.
    pub(crate) fn queue(&self) -> Ahead<ListedCandidates<'_, A>>
        ensures { result ≡ self.now.positions }
    {
        Ahead::new(ListedCandidates::new(Positions::shared(self.positions.as_slice())))
    }
}
