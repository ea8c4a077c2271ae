/// How many nodes a sentence picks.
#[derive(Clone, Copy, Debug, PartialEq, Eq)]
pub(crate) enum Picks {
    Nobody,
    One,
    Two,
    /// Two nodes of which the same is asked.
    Alike,
}
