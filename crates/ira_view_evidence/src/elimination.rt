ghost use Rattle.std.specs.Prelude.{◌≡◌, ◌↔◌, IsTrue};
ghost use Rattle.ira_view_evidence.specs.Elimination.{GoesOnWith, ending, of_step};

use ira_cert::CertStep;

/// States of a node that one state of another node eliminates: the event after the last of them happened before the event
/// that led to that state (Garg and Waldecker, Detection of Weak Unstable Predicates in Distributed Programs, IEEE TPDS
/// 5(3), 1994). State `p` of a node is the one after `p` of its events.
#[derive(Clone, Copy, Debug, PartialEq, Eq)]
pub struct Elimination {
    /// The place of the node whose states are eliminated.
    pub node: u8,
    /// The first of them.
    pub first: u32,
    /// The last of them.
    pub last: u32,
    /// The place of the other node.
    pub other: u8,
    /// Its state.
    pub other_pos: u32,
}

impl Elimination {
    /// The one that a step makes.
    pub(crate) fn of_step(step: &CertStep) -> Elimination
        ensures { result ≡ of_step step.now }
    {
        Elimination {
            node: step.node,
            first: step.pos,
            last: step.pos,
            other: step.other,
            other_pos: step.other_pos,
        }
    }

    /// Whether the step eliminates a further state of the node by the same state of the other.
    pub(crate) fn goes_on_with(&self, step: &CertStep) -> bool
        ensures { IsTrue result ↔ GoesOnWith self.now step.now }
    {
        self.node == step.node && self.other == step.other && self.other_pos == step.other_pos
    }

    /// The same with another last state.
    pub(crate) fn ending(self, last: u32) -> Elimination
        ensures { result ≡ ending self last }
    {
        Elimination { last, ..self }
    }
}
