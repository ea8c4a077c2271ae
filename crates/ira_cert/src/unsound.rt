ghost use Rattle.std.specs.Prelude.{◌≡◌, ◌≤◌, length};
ghost use Rattle.ira_cert.specs.Unsound.{unsound_words};

/// Why a step of a section isn't sound; what comes first here is looked for first.
#[derive(Clone, Copy, Debug, PartialEq, Eq)]
pub enum Unsound {
    /// The case asks nothing of one of the two nodes.
    NotAsked,
    /// The two nodes are one.
    SameNode,
    /// One of the two nodes has no candidate left.
    NodeSpent,
    /// One of the two states isn't the first candidate left of its node.
    NotFront,
    /// The event that leads on from the first state didn't happen before the one that led to the other,
    /// or one of these events doesn't exist.
    NotBefore,
}

impl Unsound {
    /// What a report says of it.
    pub fn words(self) -> &'static str
        ensures words { result.now ≡ unsound_words self }
        ensures short { length result.now ≤ 20 }
    {
        match self {
            Unsound::NotAsked => "not asked",
            Unsound::SameNode => "same node",
            Unsound::NodeSpent => "node spent",
            Unsound::NotFront => "not front",
            Unsound::NotBefore => "not before",
        }
    }
}
