use thiserror::Error;

/// Nothing is left on the link, and its writing end is gone.
#[derive(Clone, Copy, Debug, PartialEq, Eq, Error)]
#[error("the link is closed")]
pub struct Closed;
