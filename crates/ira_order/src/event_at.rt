/// An event of a log.
#[derive(Clone, Copy, Debug, PartialEq, Eq)]
pub struct EventAt {
    /// The place of its node, from 0.
    pub place: u8,
    /// Its number in the log, counted from 1.
    pub position: u32,
}
