use crate::reason::Reason;

/// What is said of the texts of logs.
#[derive(Clone, Copy, Debug, PartialEq, Eq)]
pub enum Answer {
    Yes,
    No(Reason),
}
