ghost use Rattle.std.specs.Prelude.{◌≡◌};

use std::alloc::Allocator;
use std::marker::Model;

/// A cut: how many events each node has made (Mattern, Virtual Time and Global States of Distributed
/// Systems, 1989).
#[derive(Drop)]
pub struct Cut<A: Allocator> {
    positions: Vec<u32, A>,
}

impl<A: Allocator> Model for Cut<A> {
    ghost use Rattle.std.specs.Prelude.{List, ℕ};

    ghost Value = { List ℕ };

    ghost view = { λ c. c.positions.items };
}

impl<A: Allocator> Cut<A> {
    /// The cut of these positions.
    pub(crate) fn of_positions(positions: Vec<u32, A>) -> Cut<A>
        ensures { result ≡ positions.items }
    {
        Cut { positions }
    }

    /// The position of each node, place by place: so many of its events lie before the cut.
    pub fn positions(&self) -> &[u32]
        ensures { result.now ≡ self.now }
    {
        &self.positions
    }
}
