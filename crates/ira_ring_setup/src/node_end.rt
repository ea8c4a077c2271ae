ghost use Rattle.std.specs.Prelude.{◌≡◌};
ghost use Rattle.ira_ring_setup.specs.NodeEnd.{is_stopped};

use ira_event::Load;

/// How a node came to its end.
#[derive(Clone, Copy, Debug, PartialEq, Eq)]
pub enum NodeEnd {
    /// The node leads.
    Leader,
    /// The node before it on the ring has ended and will send nothing more.
    Stopped,
    /// The node had to draw, and its draws were spent.
    DrawsSpent,
    /// The node's log had as many records as it may have.
    LogFull,
    /// The load that came next has no step; it isn't recorded.
    NoStep(Load),
    /// The node waited for a load, and none would come.
    Quiet,
}

impl NodeEnd {
    /// Whether the node ended because the node before it had.
    pub(crate) fn is_stopped(&self) -> bool
        ensures { result ≡ is_stopped self.now }
    {
        matches!(self, NodeEnd::Stopped)
    }
}
