ghost use Rattle.std.specs.Prelude.{◌≡◌, ◌≢◌, ◌≤◌, ◌<◌, ℕ, IfOk, IfSome, IsTrue, length, take};
ghost use Rattle.ira_order.specs.Ring.{log_of, next};
ghost use Rattle.ira_view_evidence.specs.LinkCause.{BeginsWith};
ghost use Rattle.ira_view_evidence.specs.LoadDifference.{DifferAlike};
ghost use Rattle.ira_view_explain.specs.RingHint.{AreOtherFaults, HasEachTwice, IsOdd, IsPassedOn, IsSkipped, IsSo, IsUnreceived};
ghost use Rattle.ira_view_explain.specs.RingHint.{IsUnsent, RunsAt};
ghost use Rattle.ira_view_explain.specs.declared.other_faults.OtherFaults.TheVariants as OtherFaults;

use crate::faulty_link::FaultyLink;
use crate::load_differences::DIFFERENCES;
use crate::other_faults::OtherFaults;
use crate::ring_hint::RingHint;
use ira_event::{Load, Logs, NodeLog, OutOfMemory};
use ira_order::{predecessor, successor};
use ira_replay::replay;
use ira_view_evidence::{LinkSides, LoadDifference, find_ring_order};
use std::alloc::Allocator;

/// Whether two logs have the same events.
fn has_same_events<A: Allocator>(log: &NodeLog<A>, other: &NodeLog<A>) -> bool
    ensures { IsTrue result → log.now.events ≡ other.now.events }
{
    let mut others = other.events();
    for event in log.events() {
        if others.next() != Some(event) {
            return false;
        }
    }
    others.next().is_none()
}

/// Whether each record of a log stands twice, one after the other, with more than two, the third not as the first.
pub(crate) fn has_each_twice<A: Allocator>(log: &NodeLog<A>) -> bool
    ensures { IsTrue result → HasEachTwice log.now.events }
{
    let mut events = log.events();
    while let Some(event) = events.next() {
        if events.next() != Some(event) {
            return false;
        }
    }
    log.len() > 2 && log.event(1) != log.event(3)
}

/// The place of another log with the events of this one.
fn copy_of<A: Allocator>(logs: &Logs<A>, place: u8) -> Option<u8>
    requires { place < length logs.now }
    ensures { IfSome result (λ other. (place ≢ other) × (log_of logs.now place ≡ log_of logs.now other)) }
{
    for other in 0..logs.size().get() {
        if other != place && has_same_events(logs.log(place), logs.log(other)) {
            return Some(other);
        }
    }
    None
}

/// Whether a node may pass the one message or reset on as the other.
pub(crate) fn is_passed_on(load: Load, passed: Load) -> bool
    ensures { IsTrue result → IsPassedOn load passed }
{
    match (load, passed) {
        (Load::Msg(a), Load::Msg(b)) => {
            (a.round, a.id) == (b.round, b.id) && a.hop.checked_add(1) == Some(b.hop)
        }
        (Load::Reset(a), Load::Reset(b)) => a.checked_add(1) == Some(b),
        _ => false,
    }
}

/// Where two lists first differ, or one of them ends.
fn first_difference(loads: &[Load], others: &[Load]) -> usize
    ensures within { (result ≤ length loads.now) × (result ≤ length others.now) }
    ensures alike { take result loads.now ≡ take result others.now }
{
    let least = loads.len().min(others.len());
    for i in 0..least {
        if loads[i] != others[i] {
            return i;
        }
    }
    least
}

/// Whether loads begin with others.
fn begins_with(loads: &[Load], front: &[Load]) -> bool
    ensures { IsTrue result → BeginsWith loads.now front.now }
{
    first_difference(loads, front) == front.len()
}

/// What was sent and wasn't received, where all else was.
fn unreceived(sent: &[Load], received: &[Load]) -> Option<Load>
    ensures { IfSome result (λ load. IsUnreceived load sent.now received.now) }
{
    let at = first_difference(sent, received);
    if at < sent.len() && begins_with(&sent[at + 1..], &received[at..]) {
        Some(sent[at])
    } else {
        None
    }
}

/// What was received and wasn't sent, where all else was.
fn unsent(sent: &[Load], received: &[Load]) -> Option<Load>
    ensures { IfSome result (λ load. IsUnsent load sent.now received.now) }
{
    let at = first_difference(sent, received);
    if at < received.len() && begins_with(&sent[at..], &received[at + 1..]) {
        Some(received[at])
    } else {
        None
    }
}

/// How alone all receipts of these links differ that aren't their sendings.
fn one_difference<A: Allocator>(
    taken: &LinkSides<A>,
    given: &LinkSides<A>,
) -> Option<LoadDifference>
    ensures { IfSome result (λ how. DifferAlike how taken.now.sent.items taken.now.received.items
        × DifferAlike how given.now.sent.items given.now.received.items) }
{
    for how in &DIFFERENCES {
        if how.is_between_all(&taken.sent, &taken.received)
            && how.is_between_all(&given.sent, &given.received)
        {
            return Some(*how);
        }
    }
    None
}

/// What a node received and passed on, on these links, where its records of both are missing; or what went past it.
fn hole<A: Allocator>(taken: &LinkSides<A>, given: &LinkSides<A>) -> Option<(Load, Load)>
    ensures { IfSome result (λ both. IsSkipped both.0 both.1
        × IsUnreceived both.0 taken.now.sent.items taken.now.received.items
        × IsUnsent both.1 given.now.sent.items given.now.received.items) }
{
    let load = unreceived(&taken.sent, &taken.received)?;
    let passed = unsent(&given.sent, &given.received)?;
    if load == passed || is_passed_on(load, passed) {
        Some((load, passed))
    } else {
        None
    }
}

/// Whether each log is that of a node.
fn are_local_runs<A: Allocator>(logs: &Logs<A>) -> bool
    ensures { IsTrue result → (i : ℕ) → i < length logs.now → RunsAt logs.now i }
{
    for place in 0..logs.size().get() {
        let Ok(_) = replay(logs.log(place)) else {
            return false;
        };
    }
    true
}

impl<'a, 'l, A: Allocator + Clone> FaultyLink<'a, 'l, A> {
    /// The cause why the log of a place fits neither neighbour, where all others fit one another.
    fn odd_log(&self, before: u8, place: u8) -> Result<Option<RingHint<&'l A>>, OutOfMemory>
        requires place { place < length self.now.logs.now }
        requires before { before < length self.now.logs.now }
        requires odd { IsOdd self.now.logs.now place before (next (length self.now.logs.now) place) }
        ensures { IfOk result (λ found. IfSome found (IsSo self.now.logs.now)) }
    {
        let logs = self.logs;
        let after = successor(logs.size().get(), place);
        if let Some(other) = copy_of(logs, place) {
            return Ok(Some(RingHint::SameRecords(place, other)));
        }
        let taken = LinkSides::of_link(self.alloc, logs, before)?;
        let given = LinkSides::of_link(self.alloc, logs, place)?;
        if let Some(how) = one_difference(&taken, &given) {
            return Ok(Some(RingHint::OneRecorder(place, before, after, how)));
        }
        if let Some((load, passed)) = hole(&taken, &given) {
            return Ok(Some(RingHint::Hole(place, load, before, passed)));
        }
        let Ok(_) = replay(logs.log(place)) else {
            return Ok(None);
        };
        Ok(Some(RingHint::AnotherRun(place, before, after)))
    }

    /// Logs of two runs, which this link and another one part.
    pub(crate) fn two_runs(&self, other: u8) -> Option<RingHint<&'l A>>
        requires { AreOtherFaults self.now.logs.now self.now.link (OtherFaults.One other) }
        ensures { IfSome result (IsSo self.now.logs.now) }
    {
        let nodes = self.logs.size().get();
        let is_near = other == self.reader || other == predecessor(nodes, self.link);
        if (nodes > 2 && is_near) || !are_local_runs(self.logs) {
            return None;
        }
        let others_first = successor(nodes, other);
        Some(RingHint::TwoRuns(self.reader, other, others_first, self.link))
    }

    /// The cause of the ring, where one explains all links, of which these others don't match.
    pub(crate) fn ring_cause(
        &self,
        others: OtherFaults,
    ) -> Result<Option<RingHint<&'l A>>, OutOfMemory>
        requires { AreOtherFaults self.now.logs.now self.now.link others }
        ensures { IfOk result (λ found. IfSome found (IsSo self.now.logs.now)) }
    {
        if has_each_twice(self.logs.log(self.reader)) {
            return Ok(Some(RingHint::EachTwice(self.reader)));
        }
        if has_each_twice(self.logs.log(self.link)) {
            return Ok(Some(RingHint::EachTwice(self.link)));
        }
        if let Some(order) = find_ring_order(self.alloc, self.logs)? {
            return Ok(Some(RingHint::OtherOrder(order)));
        }
        let nodes = self.logs.size().get();
        match others {
            OtherFaults::One(other) if nodes > 2 && other == self.reader => {
                self.odd_log(self.link, self.reader)
            }
            OtherFaults::One(other) if nodes > 2 && other == predecessor(nodes, self.link) => {
                self.odd_log(other, self.link)
            }
            _ => Ok(None),
        }
    }
}
