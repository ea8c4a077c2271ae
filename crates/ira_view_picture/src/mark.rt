use crate::after::After;
use ira_event::Event;

/// An event of a node, at its column.
#[derive(Clone, Copy, Debug, PartialEq, Eq)]
pub struct Mark {
    /// Its number in the log, counted from 1.
    pub position: u32,
    pub column: u32,
    pub event: Event,
    pub after: After,
}
