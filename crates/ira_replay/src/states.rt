ghost use Rattle.std.specs.Prelude.{◌≡◌, ◌≤◌, length};
ghost use Rattle.std.specs.Iterator.{YieldsFirst, item_count};
ghost use Rattle.ira_event.specs.Limits.{MAX_RECORDS};
ghost use Rattle.ira_node.specs.NodeState.{first_state};
ghost use Rattle.ira_replay.specs.StatesOfLog.{ArePlacedStates};
ghost use Rattle.ira_replay.specs.StatesLeft.{states_left};

use ira_event::{Event, Listed, RingSize};
use ira_node::NodeState;
use std::marker::Model;

/// The states of a node along a source of events, each with its position: the number of events before
/// it. They end with the state whose next event has no step, or with the source. Nothing is kept but
/// the next state.
#[derive(Drop)]
pub struct States<E: Iterator<Item = Event> + Listed> {
    nodes: RingSize,
    /// The position and the state that come next, unless they have ended.
    ahead: (u32, NodeState),
    has_ended: bool,
    source: E,
}

impl<E: Iterator<Item = Event> + Listed> Model for States<E> {
    ghost use Rattle.std.specs.Prelude.{List, ℕ, ◌≡◌, ◌+◌, ◌≤◌, length, false};
    ghost use Rattle.ira_event.specs.Limits.{MAX_RECORDS};
    ghost use Rattle.ira_node.specs.declared.node_state.NodeState.{NodeState};
    ghost use Rattle.ira_replay.specs.StatesLeft.{states_left, unless_ended};

    ghost Value = { List (ℕ × NodeState) };

    ghost view = { λ s. states_left s.nodes (unless_ended s.has_ended s.ahead.0 s.ahead.1) (E.left s.source) };

    ghost invariant = { λ s. s.has_ended ≡ false → s.ahead.0 + length (E.left s.source) ≤ MAX_RECORDS };
}

impl<E: Iterator<Item = Event> + Listed> States<E> {
    /// The states from the first one on, at position 0.
    pub fn new(nodes: RingSize, initiator: bool, source: E) -> States<E>
        requires { length (E.left source) ≤ MAX_RECORDS }
        ensures value { result ≡ states_left nodes (Some (0, first_state initiator)) (E.left source) }
        ensures list { ArePlacedStates nodes (first_state initiator) (E.left source) result }
    {
        States {
            nodes,
            ahead: (0, NodeState::first(initiator)),
            has_ended: false,
            source,
        }
    }
}

impl<E: Iterator<Item = Event> + Listed> Iterator for States<E> {
    type Item = (u32, NodeState);

    ghost next_gives = { YieldsFirst (λ s. s) };

    ghost remaining = { item_count (λ s. s) };

    #[inline(always)]
    fn next(&mut self) -> Option<(u32, NodeState)> {
        if self.has_ended {
            return None;
        }
        let now = self.ahead;
        match self.source.next() {
            None => self.has_ended = true,
            Some(event) => {
                self.ahead.0 += 1;
                self.has_ended = self.ahead.1.advance(self.nodes, &event).is_err();
            }
        }
        Some(now)
    }
}

impl<E: Iterator<Item = Event> + Listed> Listed for States<E> {
    ghost use Rattle.std.specs.Prelude.{refl};

    ghost left = { λ s. s };

    ghost may_go_on = { λ s. tt };

    ghost gives_first = { λ s r t h. h };

    ghost ends = { λ s. refl };
}
