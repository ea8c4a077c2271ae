use ira_node::NodeState;

/// What the steps of a section left of a node's candidates.
#[derive(Clone, Copy, Debug, PartialEq, Eq)]
pub struct Front {
    pub node: u8,
    /// How many are left.
    pub left: usize,
    /// After how many events the first of them is, and the state then.
    pub first: Option<(u32, NodeState)>,
}
