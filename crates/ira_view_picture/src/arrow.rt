use ira_event::Load;

/// What became of a message or a reset.
#[derive(Clone, Copy, Debug, PartialEq, Eq)]
pub enum Passage {
    /// It was received, and the node went on to another state.
    Taken,
    /// It was received, and left the node as it was.
    Dropped,
    /// It is part of the lap by which a node came to lead.
    OnLap,
    /// It was received as another.
    Differs,
    /// It was received no later than it was sent.
    Backward,
    /// Nobody received it.
    NotReceived,
    /// Nobody sent it.
    NotSent,
}

/// A message or a reset on a link: the link's sending and receipt of one number.
#[derive(Clone, Copy, Debug, PartialEq, Eq)]
pub struct Arrow {
    /// The link: the place of the node that sends.
    pub link: u8,
    /// The column of the sending, where there is one.
    pub sent: Option<u32>,
    /// The column of the receipt, where there is one.
    pub received: Option<u32>,
    /// What was sent, or where nothing was, what was received.
    pub load: Load,
    pub passage: Passage,
}
