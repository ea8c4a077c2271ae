use ira_event::Load;

/// What comes next at a node, but for a leader's yield.
#[derive(Clone, Copy, Debug, PartialEq, Eq)]
pub enum Due {
    /// A draw.
    Draw,
    /// The sending of this load.
    Send(Load),
    /// The receipt of this load.
    Receive(Load),
}

/// The same, with the node's place.
#[derive(Clone, Copy, Debug, PartialEq, Eq)]
pub struct NodeDue {
    pub node: u8,
    pub due: Due,
}
