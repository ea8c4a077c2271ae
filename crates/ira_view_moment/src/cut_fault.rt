use ira_order::EventAt;
use thiserror::Error;

/// Why numbers of events, one after the other for the nodes of a ring, aren't a consistent cut of its logs.
#[derive(Clone, Copy, Debug, PartialEq, Eq, Error)]
pub enum CutFault {
    /// They aren't one for each node, or some node has fewer events.
    #[error("no cut")]
    NoCut,
    /// A receipt is among the events, and the sending that it receives isn't.
    #[error("not consistent")]
    LacksSending { receipt: EventAt, sending: EventAt },
}
