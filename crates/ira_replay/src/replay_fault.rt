use ira_node::StepFault;
use thiserror::Error;

/// The first event of a log that has no step.
#[derive(Clone, Copy, Debug, PartialEq, Eq, Error)]
#[error("event {position}: {fault}")]
pub struct ReplayFault {
    /// The event's number, counted from 1.
    pub position: u32,
    /// Why it has no step.
    pub fault: StepFault,
}
