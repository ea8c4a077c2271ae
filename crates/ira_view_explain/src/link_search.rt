ghost use Rattle.std.specs.Prelude.{◌≡◌, ◌↔◌, ℕ, All, IfOk, IfSome, IsTrue, Some, slice_get};
ghost use Rattle.ira_view_evidence.specs.LinkCause.{Explains};
ghost use Rattle.ira_view_explain.specs.LinkHint.{Drops, IsNowhere, IsSo};
ghost use Rattle.ira_view_explain.specs.RingHint.{AreOtherFaults, IsPassedOn};

use crate::faulty_link::FaultyLink;
use crate::link_hint::{LinkHint, RowCount};
use crate::load_differences::{DIFFERENCES, differing, field_of};
use crate::other_faults::OtherFaults;
use crate::reordering::{are_reordered, place_of};
use crate::ring_search::is_passed_on;
use ira_event::{Event, Load, OutOfMemory};
use ira_node::{NodeState, Phase, StepFault};
use ira_order::{FaultyEvent, predecessor};
use ira_replay::replay;
use ira_view_evidence::{LinkCause, LinkSides, state_after};
use std::alloc::Allocator;

/// A change of order is looked for among at most so many messages.
const MOST_TURNED: usize = 1_000;

/// Whether a node in this state drops the load for its lesser pair.
fn is_dropped(state: NodeState, load: Load) -> bool
    ensures { IsTrue result → Drops state load }
{
    match (state.phase, load) {
        (Phase::Active { round, id }, Load::Msg(message)) => {
            (message.round, message.id) < (round, id)
        }
        _ => false,
    }
}

/// What was sent to a node, isn't among its receipts, and would be passed on as this load.
fn missing_call(sent: &[Load], received: &[Load], load: Load) -> Option<Load>
    ensures { IfSome result (λ call. IsPassedOn call load × ((i : ℕ) × (slice_get sent.now i ≡ Some call))
        × IsNowhere received.now call) }
{
    for call in sent {
        if is_passed_on(*call, load) && place_of(received, *call).is_none() {
            return Some(*call);
        }
    }
    None
}

impl<'a, 'l, A: Allocator + Clone> FaultyLink<'a, 'l, A> {
    /// Where the sender's log ends owing what was received.
    fn owed_at_end(&self) -> Option<LinkHint<'a, &'l A>>
        ensures { IfSome result (IsSo self.now) }
    {
        let writer = self.logs.log(self.link);
        let state = replay(writer).ok()?;
        if self.sending.is_some() || state.owed != Some(self.receipt.load) {
            return None;
        }
        Some(LinkHint::OwedAtEnd(self.link, self.writer_file, writer.len() + 5))
    }

    /// Whether each sending without a receipt is one that the reader drops before its next receipt, of which it drops
    /// none.
    fn are_dropped(&self) -> bool {
        let reader = self.logs.log(self.reader);
        let (mut state, mut taken) = (NodeState::first(reader.initiator()), 0usize);
        for event in reader.events() {
            if let Event::Got(load) = event {
                if is_dropped(state, load) {
                    return false;
                }
                for sending in self.sides.sent.iter().skip(taken) {
                    taken = taken.saturating_add(1);
                    if *sending == load {
                        break;
                    }
                    if !is_dropped(state, *sending) {
                        return false;
                    }
                }
            }
            match state.step(reader.nodes(), &event) {
                Ok(after) => state = after,
                Err(_) => return false,
            }
        }
        true
    }

    /// The sending that the reader drops, where it records no receipt of what it drops, and all else.
    fn dropped(&self) -> Option<LinkHint<'a, &'l A>>
        ensures { IfSome result (IsSo self.now) }
    {
        let load = self.sending?.load;
        let before = self.receipt.at.position.checked_sub(1)?;
        let state = state_after(self.logs.log(self.reader), before)?;
        if !is_dropped(state, load) || !self.are_dropped() {
            return None;
        }
        Some(LinkHint::Dropped(self.reader, state, load))
    }

    /// What is told where nothing explains the link: that what was received was never sent, where it wasn't.
    fn never_sent(&self) -> Result<Option<LinkHint<'a, &'l A>>, OutOfMemory>
        ensures { IfOk result (λ found. IfSome found (IsSo self.now)) }
    {
        let load = self.receipt.load;
        if place_of(&self.sides.sent, load).is_some() {
            return Ok(None);
        }
        let before = predecessor(self.logs.size().get(), self.link);
        let taken = LinkSides::of_link(self.alloc, self.logs, before)?;
        let call = missing_call(&taken.sent, &taken.received, load);
        Ok(Some(LinkHint::NeverSent(self.link, load, call)))
    }

    /// How all receipts differ that aren't their sendings: at least so many, or one with fields exchanged.
    fn changed_rows(&self, least: usize) -> Option<LinkHint<'a, &'l A>>
        ensures { IfSome result (IsSo self.now) }
    {
        let (sent, received) = (&self.sides.sent, &self.sides.received);
        let differ = differing(sent, received);
        let rows = match differ {
            1 => RowCount::One,
            _ if differ == received.len() => RowCount::All,
            _ => RowCount::Several,
        };
        for how in &DIFFERENCES {
            if (differ >= least || field_of(*how).is_none()) && how.is_between_all(sent, received) {
                return Some(LinkHint::Rows(*how, rows));
            }
        }
        None
    }

    /// The number of the last receipt that isn't its sending.
    fn last_difference(&self) -> u32 {
        let (mut row, mut last) = (0u32, self.k);
        for (sending, receipt) in self.sides.sent.iter().zip(self.sides.received.iter()) {
            row = row.saturating_add(1);
            if sending != receipt {
                last = row;
            }
        }
        last
    }

    /// Where receipts are the sendings of their numbers in another order, and the others are their sendings.
    fn reordered(&self) -> Result<Option<LinkHint<'a, &'l A>>, OutOfMemory>
        ensures { IfOk result (λ found. IfSome found (IsSo self.now)) }
    {
        let (first, last) = (self.k, self.last_difference());
        let (from, to) = ((first as usize).saturating_sub(1), last as usize);
        let (sent, received) = (self.sides.sent.as_slice(), self.sides.received.as_slice());
        if received.len() > sent.len() || from > to || to > received.len() {
            return Ok(None);
        }
        if to - from > MOST_TURNED {
            return Ok(None);
        }
        Ok(if are_reordered(self.alloc, &sent[from..to], &received[from..to])? {
            Some(LinkHint::Reordered(first, last))
        } else {
            None
        })
    }

    /// Whether this explains the link.
    fn is_explained_by(&self, cause: LinkCause) -> bool
        ensures { IsTrue result ↔ Explains cause self.now.sides.sent.items self.now.sides.received.items self.now.k }
    {
        cause.explains(&self.sides.sent, &self.sides.received, self.k as usize)
    }

    /// The sending before the named receipt's, where that is the same and was received once.
    fn sent_twice(&self) -> Option<LinkHint<'a, &'l A>>
        ensures { IfSome result (IsSo self.now) }
    {
        let (sent, again) = (self.sides.sent.as_slice(), self.k as usize);
        if again < 2 || again > sent.len() || sent[again - 2] != sent[again - 1] {
            return None;
        }
        if !self.is_explained_by(LinkCause::NoReceipt(1)) {
            return None;
        }
        Some(LinkHint::SentTwice(self.k))
    }

    /// Where sendings have no receipt, or receipts no sending, one after the other.
    fn missing_run(&self) -> Option<LinkHint<'a, &'l A>>
        ensures { IfSome result (IsSo self.now) }
    {
        let (first, writer) = (self.k, self.link);
        let from = (first as usize).saturating_sub(1);
        let sent = self.sides.sent.as_slice().get(from..)?;
        let received = self.sides.received.as_slice().get(from..)?;
        if let Some(lost) = place_of(sent, *received.first()?)
            && (lost == 1 || received.len() > 1)
            && self.is_explained_by(LinkCause::NoReceipt(lost))
        {
            let count = u32::try_from(lost).ok()?;
            return Some(LinkHint::NoReceipt(first, count));
        }
        if self.is_explained_by(LinkCause::CameTwice) {
            return Some(LinkHint::CameTwice(first, writer));
        }
        let added = place_of(received, *sent.first()?)?;
        if !self.is_explained_by(LinkCause::NoSending(added)) {
            return None;
        }
        let count = u32::try_from(added).ok()?;
        Some(LinkHint::NoSending(first, count, writer))
    }

    /// What is missing on one side, or the one receipt of several that differs.
    fn missing(&self) -> Option<LinkHint<'a, &'l A>>
        ensures { IfSome result (IsSo self.now) }
    {
        match self.missing_run() {
            None if self.sides.received.len() > 1 => self.changed_rows(1),
            run => run,
        }
    }

    /// The cause that explains all that was recorded of the link, where nothing that is missing does so.
    fn whole_cause(&self) -> Result<Option<LinkHint<'a, &'l A>>, OutOfMemory>
        ensures { IfOk result (λ found. IfSome found (IsSo self.now)) }
    {
        if let Some(hint) = self.owed_at_end() {
            return Ok(Some(hint));
        }
        if let Some(hint) = self.reordered()? {
            return Ok(Some(hint));
        }
        Ok(self.changed_rows(2).or(self.sent_twice()))
    }

    /// The likeliest cause; where there is none, or two runs are likelier, these; else what was never sent.
    fn last_cause(
        &self,
        likely: Option<LinkHint<'a, &'l A>>,
        others: OtherFaults,
    ) -> Result<Option<LinkHint<'a, &'l A>>, OutOfMemory>
        requires others { AreOtherFaults self.now.logs.now self.now.link others }
        requires likely { IfSome likely (IsSo self.now) }
        ensures { IfOk result (λ found. IfSome found (IsSo self.now)) }
    {
        if let OtherFaults::One(other) = others
            && likely.as_ref().is_none_or(|hint| hint.is_doubtful())
            && let Some(hint) = self.two_runs(other)
        {
            return Ok(Some(LinkHint::Ring(hint)));
        }
        match likely {
            Some(hint) => Ok(Some(hint)),
            None => self.never_sent(),
        }
    }

    /// Whether a node of the link went wrong before by itself: a missing sending leaves its node owing, a missing receipt
    /// doesn't.
    fn went_wrong_before(&self) -> bool {
        match self.other {
            Some(FaultyEvent { at, fault }) if self.came_before => {
                (at.place == self.link) != (fault == StepFault::Owes)
            }
            _ => false,
        }
    }

    /// The causes that explain the ring or the link, where they are found.
    pub(crate) fn find_causes(&self) -> Result<Vec<LinkHint<'a, &'l A>, &'l A>, OutOfMemory>
        ensures { IfOk result (λ causes. All (IsSo self.now) causes.items) }
    {
        let mut hints = Vec::new(self.alloc);
        let others = OtherFaults::find(self.logs, self.link);
        if let Some(hint) = self.ring_cause(others)? {
            hints.push(LinkHint::Ring(hint))?;
            return Ok(hints);
        }
        if self.went_wrong_before() {
            return Ok(hints);
        }
        let mut likely = self.whole_cause()?;
        if likely.is_none() {
            likely = self.missing();
            if let Some(hint) = self.dropped() {
                hints.push(hint)?;
                if let Some(hint) = likely {
                    hints.push(hint)?;
                }
                return Ok(hints);
            }
        }
        if let Some(hint) = self.last_cause(likely, others)? {
            hints.push(hint)?;
        }
        Ok(hints)
    }
}
