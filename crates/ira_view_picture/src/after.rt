use ira_node::NodeState;

/// What is known of a node after an event.
#[derive(Clone, Copy, Debug, PartialEq, Eq)]
pub enum After {
    /// Its state.
    State(NodeState),
    /// The event has no step.
    NoStep,
    /// An earlier event has no step.
    Unknown,
}
