ghost use Rattle.std.specs.Prelude.{MatchResult};
ghost use Rattle.ira_commands.specs.RingMoment.{IsAskedRing, IsNoAskedRing};

use ira_audit::GoodLogs;
use ira_view::{RingFault, ShownRing};
use std::alloc::Allocator;

/// A moment of a ring that is asked for.
#[derive(Clone, Copy)]
pub enum RingMoment<'v> {
    AtEnd,
    /// When each node has made so many of its events, in the order of the ring's places; any numbers.
    AtCut(&'v [u64]),
    /// The first that meets a case of a question: the case of a number, counted from 0, or any.
    OfQuestion(Option<u64>),
}

impl<'v> RingMoment<'v> {
    /// The ring of good logs at this moment, of a question of this text where it is the first of one.
    pub(crate) fn ring<A: Allocator + Clone>(
        &self,
        alloc: A,
        logs: GoodLogs<A>,
        question: &[u8],
    ) -> Result<ShownRing<A>, RingFault>
        ensures { MatchResult result (IsAskedRing logs self.now question.now)
            (IsNoAskedRing logs self.now question.now) }
    {
        match *self {
            RingMoment::AtEnd => Ok(ShownRing::at_end(logs)),
            RingMoment::AtCut(events) => ShownRing::at_cut(alloc, logs, events),
            RingMoment::OfQuestion(case) => ShownRing::of_question(alloc, logs, question, case),
        }
    }
}
