ghost use Rattle.std.specs.Prelude.{◌≡◌};
ghost use Rattle.ira_event.specs.Event.{is_msg};

use crate::limits::is_number;

/// A message of the election: the pair (round, ID) of the node that sent it first, how many links it
/// has crossed, and whether it met a node with the same pair.
#[derive(Clone, Copy, Debug, PartialEq, Eq)]
pub struct Msg {
    pub round: u32,
    pub id: u32,
    pub hop: u32,
    pub dirty: bool,
}

impl Msg {
    /// Whether a record may hold each number of the message.
    pub(crate) fn is_in_range(&self) -> bool
        ensures { result ≡ is_msg self.now }
    {
        is_number(self.round) && is_number(self.id) && is_number(self.hop)
    }
}
