/// What eliminations left of a node's candidates.
#[derive(Clone, Copy, Debug, PartialEq, Eq)]
pub enum QueueHead {
    /// The case asks nothing of the node.
    NotAsked,
    /// It has none left.
    Spent,
    /// This position is the first one left.
    First(u32),
}
