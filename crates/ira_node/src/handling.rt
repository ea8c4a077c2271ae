/// What a node that owes nothing does with a message while it stays as it is.
#[derive(Clone, Copy, Debug, PartialEq, Eq)]
pub enum Handling {
    /// It passes the message on.
    Passes,
    /// It purges the message.
    Purges,
}
