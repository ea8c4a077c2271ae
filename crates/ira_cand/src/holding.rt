ghost use Rattle.std.specs.Prelude.{◌≡◌};
ghost use Rattle.std.specs.Iterator.{YieldsFirst, item_count};
ghost use Rattle.ira_cand.specs.Holding.{positions_passing};

use crate::local_test::LocalTest;
use ira_event::Listed;
use ira_node::NodeState;
use std::marker::Model;

/// The positions of a source at which the state passes a test, in the source's order; seen by contracts
/// as the list of those that are left. Each state is looked at once, and none is kept.
#[derive(Drop)]
pub struct Holding<S: Iterator<Item = (u32, NodeState)> + Listed, T: LocalTest> {
    states: S,
    test: T,
}

impl<S: Iterator<Item = (u32, NodeState)> + Listed, T: LocalTest> Model for Holding<S, T> {
    ghost use Rattle.std.specs.Prelude.{List, ℕ};
    ghost use Rattle.ira_cand.specs.Holding.{positions_passing};

    ghost Value = { List ℕ };

    ghost view = { λ h. positions_passing (T.holds h.test) (S.left h.states) };
}

impl<S: Iterator<Item = (u32, NodeState)> + Listed, T: LocalTest> Holding<S, T> {
    /// The positions of those of the states that pass the test.
    pub fn new(states: S, test: T) -> Holding<S, T>
        ensures { result ≡ positions_passing (T.holds test) (S.left states) }
    {
        Holding { states, test }
    }
}

impl<S: Iterator<Item = (u32, NodeState)> + Listed, T: LocalTest> Iterator for Holding<S, T> {
    type Item = u32;

    ghost next_gives = { YieldsFirst (λ s. s) };

    ghost remaining = { item_count (λ s. s) };

    fn next(&mut self) -> Option<u32> {
        while let Some((position, state)) = self.states.next() {
            if self.test.holds(&state) {
                return Some(position);
            }
        }
        None
    }
}

impl<S: Iterator<Item = (u32, NodeState)> + Listed, T: LocalTest> Listed for Holding<S, T> {
    ghost use Rattle.std.specs.Prelude.{refl};

    ghost left = { λ s. s };

    ghost may_go_on = { λ s. tt };

    ghost gives_first = { λ s r t h. h };

    ghost ends = { λ s. refl };
}
