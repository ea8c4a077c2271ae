ghost use Rattle.std.specs.Prelude.{◌≡◌, ◌≢◌, ◌+◌, ◌<◌, ◌≤◌, ◌⊎◌, ◌↔◌, ℕ, List, IfOk, IsTrue, length};
ghost use Rattle.ira_event.specs.Log.{Log};
ghost use Rattle.ira_order.specs.Before.{Before};
ghost use Rattle.ira_order.specs.Ring.{log_of};
ghost use Rattle.ira_order.specs.VectorClock.{IsCount};
ghost use Rattle.ira_elim.specs.CandidateClock.{AreNoReceipts, IsCandidateClock, IsCounted, LearnsNothing};

use ira_event::{Event, NodeLog};
use ira_order::HappenedBefore;
use std::alloc::{AllocError, Allocator};
use std::marker::Model;

/// A node at its first candidate left, and how many events of each other node happened up to there, or up to an earlier
/// position: most counts are never looked at, and are written anew where they are.
#[derive(Drop)]
pub(crate) struct CandidateClock<A: Allocator> {
    position: u32,
    /// The position at which the counts were written.
    counted_at: u32,
    counts: Vec<u32, A>,
}

impl<A: Allocator> Model for CandidateClock<A> {
    ghost use Rattle.ira_elim.specs.CandidateClock.{CandidateClock};

    ghost Value = { CandidateClock };

    ghost view = { λ s. record { position = s.position; counted_at = s.counted_at; counts = s.counts.items } };
}

impl<A: Allocator> CandidateClock<A> {
    /// The node at this position, with its counts there.
    pub(crate) fn at<C: HappenedBefore>(
        alloc: A,
        ordered: &C,
        place: u8,
        position: u32,
    ) -> Result<CandidateClock<A>, AllocError>
        requires place { place < length (C.logs_of ordered.now) }
        requires position { position ≤ length (log_of (C.logs_of ordered.now) place) }
        ensures clock { IfOk result (IsCandidateClock (C.logs_of ordered.now) place position) }
        ensures counted { IfOk result IsCounted }
    {
        let nodes = usize::from(ordered.logs().size().get());
        let mut counts = vec![in alloc; 0; nodes]?;
        ordered.write_counts(place, position, &mut counts);
        Ok(CandidateClock {
            position,
            counted_at: position,
            counts,
        })
    }

    /// A node that isn't asked: nothing eliminates it, and it eliminates nothing.
    pub(crate) fn nowhere(alloc: A) -> CandidateClock<A> {
        CandidateClock {
            position: u32::MAX,
            counted_at: u32::MAX,
            counts: Vec::new(alloc),
        }
    }

    pub(crate) fn position(&self) -> u32
        ensures { result ≡ self.now.position }
    {
        self.position
    }

    pub(crate) fn counts(&self) -> &[u32]
        ensures { result.now ≡ self.now.counts }
    {
        &self.counts
    }

    /// How many events of the node at `place` are counted here, where the node at `own` stands.
    pub(crate) fn count(&self, own: u8, place: u8) -> u32
        requires { place < length self.now.counts }
        ensures { (logs : List Log) (q : ℕ) → own < length logs → place < length logs
            → q ≤ length (log_of logs own) → IsCandidateClock logs own q self.now → IsCounted self.now
            → IsCount logs own q place result }
    {
        if place == own {
            return self.position;
        }
        self.counts[usize::from(place)]
    }

    /// Whether event `position + 1` of the node at `place` happened before the node at `own` came here. Where the
    /// counts don't say so, they are written anew first.
    pub(crate) fn knows<C: HappenedBefore>(
        &mut self,
        ordered: &C,
        own: u8,
        place: u8,
        position: u32,
    ) -> bool
        requires places { (own < length (C.logs_of ordered.now)) × (place < length (C.logs_of ordered.now)) }
        requires within { self.old.position ≤ length (log_of (C.logs_of ordered.now) own) }
        requires old { IsCandidateClock (C.logs_of ordered.now) own self.old.position self.old }
        ensures new { IsCandidateClock (C.logs_of ordered.now) own self.old.position self.new }
        ensures value { place ≢ own
            → IsTrue result ↔ Before (C.logs_of ordered.now) place (position + 1) own self.old.position }
    {
        if self.counts[usize::from(place)] > position {
            return true;
        }
        self.refresh(ordered, own);
        self.counts[usize::from(place)] > position
    }

    /// Writes the counts anew, unless they are those at the position.
    pub(crate) fn refresh<C: HappenedBefore>(&mut self, ordered: &C, own: u8)
        requires place { own < length (C.logs_of ordered.now) }
        requires within { self.old.position ≤ length (log_of (C.logs_of ordered.now) own) }
        requires old { IsCandidateClock (C.logs_of ordered.now) own self.old.position self.old }
        ensures new { IsCandidateClock (C.logs_of ordered.now) own self.old.position self.new }
        ensures counted { IsCounted self.new }
    {
        if self.counted_at != self.position {
            ordered.write_counts(own, self.position, &mut self.counts);
            self.counted_at = self.position;
        }
    }

    /// Moves the node on, and tells whether it receives a message on the way; where it doesn't, it knows no
    /// more of the others.
    pub(crate) fn advance<C: HappenedBefore>(
        &mut self,
        ordered: &C,
        place: u8,
        position: u32,
    ) -> bool
        requires place { place < length (C.logs_of ordered.now) }
        requires onward { self.old.position ≤ position }
        requires position { position ≤ length (log_of (C.logs_of ordered.now) place) }
        requires old { IsCandidateClock (C.logs_of ordered.now) place self.old.position self.old }
        ensures new { IsCandidateClock (C.logs_of ordered.now) place position self.new }
        ensures quiet { IsTrue result ⊎ LearnsNothing (C.logs_of ordered.now) place self.old.position position }
    {
        let log = ordered.logs().log(place);
        let from = self.position;
        self.position = position;
        receives(log, from, position)
    }
}

/// Whether the node receives a message after the first position, up to the second.
fn receives<A: Allocator>(log: &NodeLog<A>, from: u32, to: u32) -> bool
    requires onward { from ≤ to }
    requires within { to ≤ length log.now.events }
    ensures { IsTrue result ⊎ AreNoReceipts log.now from to }
{
    for number in from..to {
        if let Event::Got(_) = log.event(number + 1) {
            return true;
        }
    }
    false
}
