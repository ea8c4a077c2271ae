use ira_event::Load;
use ira_order::EventAt;

/// Where a node is stuck: a receipt that no order of the ring's events comes to.
#[derive(Clone, Copy, Debug, PartialEq, Eq)]
pub struct StuckAt {
    pub receipt: EventAt,
    /// What it received.
    pub load: Load,
    /// The sending that it waits for. It is in the log of the node before, after the receipt at which that node is
    /// stuck.
    pub sending: EventAt,
}
