/// What the run of a ring had.
#[derive(Clone, Copy)]
pub struct RunFeatures {
    /// Several nodes drew the greatest ID of a round.
    pub tie: bool,
    /// A node drew in one.
    pub second_round: bool,
    /// A node came to one.
    pub second_term: bool,
    /// A node that isn't an initiator drew: a reset woke it.
    pub wake_up: bool,
    /// A message left the node that received it as it was.
    pub dropped: bool,
}
