use ira_event::Load;

/// What goes over a link.
#[derive(Clone, Copy, Debug, PartialEq, Eq)]
pub enum Frame {
    /// A message of the election, or a reset.
    Load(Load),
    /// The writer puts nothing more.
    Stop,
}
