use crate::event_at::EventAt;
use ira_node::StepFault;

/// A node's first event without a step.
#[derive(Clone, Copy, Debug, PartialEq, Eq)]
pub struct FaultyEvent {
    pub at: EventAt,
    /// Why it has none.
    pub fault: StepFault,
}
