ghost use Rattle.std.specs.Prelude.{◌≡◌, ◌↔◌, IsTrue};
ghost use Rattle.ira_event.specs.RingSize.{FitsVersion};
ghost use Rattle.ira_event.specs.Version.{IsVersion};
ghost use Rattle.ira_ring_setup.specs.Terms.{version_of, IsLastLeader};

use ira_event::{MAX_VERSION_1_NODES, RingSize};
use ira_node::{NodeState, Phase};

/// The version of the logs of a run of so many terms: 1 where there is one term, and logs of version 1 may be of the ring,
/// else 2.
pub fn log_version(nodes: RingSize, terms: u32) -> u8
    ensures value { result ≡ version_of nodes terms }
    ensures valid { IsVersion result × FitsVersion result nodes }
{
    if terms > 1 || usize::from(nodes.get()) > MAX_VERSION_1_NODES {
        2
    } else {
        1
    }
}

/// Whether a node in this state leads, in the last of so many terms or in a later one.
#[inline(always)]
pub fn is_last_leader(state: &NodeState, terms: u32) -> bool
    ensures { IsTrue result ↔ IsLastLeader terms state.now }
{
    matches!(state.phase, Phase::Leader { .. }) && state.term >= terms
}
