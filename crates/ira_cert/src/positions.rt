ghost use Rattle.std.specs.Prelude.{◌≡◌};

use std::alloc::Allocator;
use std::marker::Model;

/// Where positions lie.
#[derive(Drop)]
enum Store<'t, A: Allocator> {
    Own(Vec<u32, A>),
    Shared(&'t [u32]),
}

/// A list of positions: a case's own, or one that several cases share.
#[derive(Drop)]
pub struct Positions<'t, A: Allocator> {
    store: Store<'t, A>,
}

impl<'t, A: Allocator> Model for Positions<'t, A> {
    ghost use Rattle.std.specs.Prelude.{List, ℕ};
    ghost use Rattle.ira_cert.specs.Positions.{stored};

    ghost Value = { List ℕ };

    ghost view = { λ p. stored p.store };
}

impl<'t, A: Allocator> Positions<'t, A> {
    /// The positions of this list, which it owns.
    pub fn own(positions: Vec<u32, A>) -> Positions<'t, A>
        ensures { result ≡ positions.items }
    {
        Positions {
            store: Store::Own(positions),
        }
    }

    /// Those of a list that others use too.
    pub fn shared(positions: &'t [u32]) -> Positions<'t, A>
        ensures { result ≡ positions.now }
    {
        Positions {
            store: Store::Shared(positions),
        }
    }

    /// The positions as a slice.
    pub fn as_slice(&self) -> &[u32]
        ensures { result.now ≡ self.now }
    {
        match &self.store {
            Store::Own(positions) => positions,
            Store::Shared(positions) => positions,
        }
    }
}
