ghost use Rattle.std.specs.Prelude.{◌≡◌};
ghost use Rattle.std.specs.Iterator.{YieldsFirst, item_count};

use crate::positions::Positions;
use ira_event::Listed;
use std::alloc::Allocator;
use std::marker::Model;

/// The positions of a list, one after the other; seen by contracts as the list of those that are left.
#[derive(Drop)]
pub struct ListedCandidates<'t, A: Allocator> {
    positions: Positions<'t, A>,
    given: usize,
}

impl<'t, A: Allocator> Model for ListedCandidates<'t, A> {
    ghost use Rattle.std.specs.Prelude.{List, ℕ, drop};

    ghost Value = { List ℕ };

    ghost view = { λ k. drop k.given k.positions };
}

impl<'t, A: Allocator> ListedCandidates<'t, A> {
    /// All positions of the list.
    pub fn new(positions: Positions<'t, A>) -> ListedCandidates<'t, A>
        ensures { result ≡ positions.entry }
    {
        ListedCandidates {
            positions,
            given: 0,
        }
    }
}

impl<'t, A: Allocator> Iterator for ListedCandidates<'t, A> {
    type Item = u32;

    ghost next_gives = { YieldsFirst (λ p. p) };

    ghost remaining = { item_count (λ p. p) };

    fn next(&mut self) -> Option<u32> {
        let first = *self.positions.as_slice().get(self.given)?;
        self.given += 1;
        Some(first)
    }
}

impl<'t, A: Allocator> Listed for ListedCandidates<'t, A> {
    ghost use Rattle.std.specs.Prelude.{refl};

    ghost left = { λ p. p };

    ghost may_go_on = { λ p. tt };

    ghost gives_first = { λ p r q h. h };

    ghost ends = { λ p. refl };
}
