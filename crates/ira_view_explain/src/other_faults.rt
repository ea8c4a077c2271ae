ghost use Rattle.std.specs.Prelude.{◌↔◌, ◌<◌, IsTrue, length};
ghost use Rattle.ira_view_explain.specs.RingHint.{AreOtherFaults, Fits};

use ira_event::Logs;
use ira_order::successor;
use ira_view_evidence::takes_from;
use std::alloc::Allocator;

/// Which links of a ring but one don't match.
#[derive(Clone, Copy, PartialEq, Eq)]
pub(crate) enum OtherFaults {
    None,
    One(u8),
    Several,
}

/// Whether a link matches.
fn fits<A: Allocator>(logs: &Logs<A>, link: u8) -> bool
    requires { link < length logs.now }
    ensures { IsTrue result ↔ Fits logs.now link }
{
    takes_from(logs.log(successor(logs.size().get(), link)), logs.log(link))
}

impl OtherFaults {
    /// Those of these logs, but for this link.
    pub(crate) fn find<A: Allocator>(logs: &Logs<A>, link: u8) -> OtherFaults
        ensures { AreOtherFaults logs.now link result }
    {
        let mut found = OtherFaults::None;
        for other in 0..logs.size().get() {
            if other != link && !fits(logs, other) {
                if found != OtherFaults::None {
                    return OtherFaults::Several;
                }
                found = OtherFaults::One(other);
            }
        }
        found
    }
}
