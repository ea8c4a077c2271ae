ghost use Rattle.std.specs.Prelude.{◌≡◌};
ghost use Rattle.ira_event.specs.Event.{is_load};

use crate::limits::is_number;
use crate::msg::Msg;

/// What a node puts on its link.
#[derive(Clone, Copy, Debug, PartialEq, Eq)]
pub enum Load {
    /// A message of the election.
    Msg(Msg),
    /// A reset, with the number of links that it has crossed; it begins the next term.
    Reset(u32),
}

impl Load {
    /// Whether a record may hold each number of the load.
    pub(crate) fn is_in_range(&self) -> bool
        ensures { result ≡ is_load self.now }
    {
        match self {
            Load::Msg(message) => message.is_in_range(),
            Load::Reset(hop) => is_number(*hop),
        }
    }
}
