ghost use Rattle.std.specs.Prelude.{◌↔◌, IsTrue};
ghost use Rattle.ira_ring.specs.SeededRing.{HasLeader};

use ira_ring_setup::NodeEnd;

/// Whether a node ended as the leader.
pub fn has_leader(ends: &[NodeEnd]) -> bool
    ensures { IsTrue result ↔ HasLeader ends.now }
{
    ends.contains(&NodeEnd::Leader)
}
