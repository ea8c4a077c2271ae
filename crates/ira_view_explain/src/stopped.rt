ghost use Rattle.std.specs.Prelude.{◌≡◌, ◌↔◌, ◌+◌, ℕ, IfSome, IsTrue, List, MatchOption, ◌∷◌, [], ◌++◌, Some, length};
ghost use Rattle.std.specs.Prelude.{slice_get};
ghost use Rattle.std.specs.List.{list_any, position};
ghost use Rattle.ira_event.specs.declared.event.Event.TheVariants as Event;
ghost use Rattle.ira_node.specs.NodeStep.{NodeStep};
ghost use Rattle.ira_node.specs.declared.node_state.NodeState.{NodeState};
ghost use Rattle.ira_order.specs.Matching.{got, sent};
ghost use Rattle.ira_order.specs.Ring.{numbered};
ghost use Rattle.ira_view_evidence.specs.LoadDifference.{DiffersBy};
ghost use Rattle.ira_view_evidence.specs.NodeEvidence.{IsNodeEvidence};
ghost use Rattle.ira_view_explain.specs.StopHint.{BeginsAgain, CallsFor, IsBegun, IsCalledNext, IsSentAfter, IsSo, IsSoOfBoth};
ghost use Rattle.ira_view_explain.specs.StopHint.{is_of_reset, line_number, starts_clean};
ghost use Rattle.ira_view_explain.specs.declared.stopped.Stopped.{Stopped};

use crate::numbered::fill;
use crate::ring_search::has_each_twice;
use crate::stop_hint::StopHint;
use ira_event::{Event, Load, Msg, NodeLog, RingSize};
use ira_node::{NodeState, Phase, StepFault};
use ira_view_evidence::{LoadDifference, LoadField, NodeEvidence};
use ira_view_page::{Page, event_of, line_of};
use std::alloc::Allocator;

/// The rule by which a choosing node draws.
const DRAWS: &str =
    "Rule 2: a choosing node draws an ID of 1 to N, and owes the message with its pair, hop 1, clean.";

/// The rule by which a node that yielded waits.
const WAITS_FOR_RESET: &str =
    "Rule 7: the node that yielded receives its reset with hop N, and nothing else before it; then it chooses in the \
     next term.";

/// An event without a step, with the state and the event before it.
#[derive(Clone, Copy)]
pub(crate) struct Stopped {
    /// The ring's size.
    nodes: u8,
    position: u32,
    pub(crate) event: Event,
    pub(crate) fault: StepFault,
    pub(crate) state: NodeState,
    /// The event before it, and the state before that one.
    last: Option<(NodeState, Event)>,
}

impl Stopped {
    /// What the evidence of a log says.
    pub(crate) fn of<A: Allocator>(log: &NodeLog<A>, evidence: &NodeEvidence<A>) -> Stopped
        requires { IsNodeEvidence log.now evidence.now.fault evidence.now.first evidence.now.states.items }
        ensures position { result.position ≡ evidence.now.fault.position }
        ensures event { numbered log.now.events evidence.now.fault.position ≡ Some result.event }
        ensures state { (earlier : List NodeState) × (evidence.now.states.items ≡ earlier ++ result.state ∷ []) }
    {
        let position = evidence.fault.position;
        let (Some((state, earlier)), Some(event)) = (
            evidence.states.as_slice().split_last(),
            event_of(log, position),
        ) else {
            unreachable!()
        };
        let last = earlier
            .last()
            .copied()
            .zip(event_of(log, position.saturating_sub(1)));
        Stopped {
            nodes: log.nodes().get(),
            position,
            event,
            fault: evidence.fault.fault,
            state: *state,
            last,
        }
    }

    /// Adds what is due in place of the event, or why it can't be there.
    pub(crate) fn add_due<A: Allocator>(&self, text: &mut Page<A>) {
        match self.fault {
            StepFault::Owes | StepFault::NotOwed => self.add_debt(text),
            StepFault::NotChoosing => text.words("only a choosing node draws"),
            StepFault::DrawRange => text.numbered("an ID is 1 to ", u32::from(self.nodes)),
            StepFault::MustDraw => text.words("`draw` is due"),
            StepFault::Ended => text.words("it leads"),
            StepFault::HopPast => self.add_past(text),
            StepFault::HopLimit | StepFault::RoundLimit | StepFault::TermLimit => {
                text.words("the number is to be raised")
            }
            StepFault::NotLeader => text.words("only a leader yields"),
            StepFault::WrongReset => self.add_reset(text),
            StepFault::NotReset => self.add_due_reset(text),
        }
    }

    fn add_due_reset<A: Allocator>(&self, text: &mut Page<A>) {
        fill(text, "`recv reset {}` is due", [self.nodes]);
    }

    fn add_debt<A: Allocator>(&self, text: &mut Page<A>) {
        match (self.state.owed, self.state.phase) {
            (Some(load), _) => {
                text.words("`send ");
                text.load(load);
                text.words("` is due");
            }
            (None, Phase::Choosing { .. }) => text.words("it owes nothing, `draw` is due"),
            (None, Phase::Yielding) => {
                text.words("it owes nothing, ");
                self.add_due_reset(text);
            }
            (None, _) => text.words("it owes nothing"),
        }
    }

    fn add_past<A: Allocator>(&self, text: &mut Page<A>) {
        if let Event::Got(Load::Msg(message)) = self.event {
            fill(text, "its own pair with hop {}, and ", [message.hop]);
        }
        text.numbered("N is ", u32::from(self.nodes));
    }

    fn add_reset<A: Allocator>(&self, text: &mut Page<A>) {
        let nodes = u32::from(self.nodes);
        match self.state.phase {
            Phase::Passive => text.numbered(
                "a passive node takes a reset with a hop below ",
                nodes,
            ),
            Phase::Yielding => text.numbered("its reset comes back with hop ", nodes),
            _ => text.words("an active node takes no reset"),
        }
    }

    /// The rules that say what is due in place of the event: one or two.
    pub(crate) fn rules(&self) -> (&'static str, Option<&'static str>) {
        match self.fault {
            StepFault::Owes | StepFault::NotOwed => self.debt_rules(),
            StepFault::NotChoosing => (self.draw_rule(), None),
            StepFault::DrawRange => (DRAWS, None),
            StepFault::MustDraw => self.choice_rules(),
            StepFault::Ended => (
                "Rule 5: its own pair is back with hop N and clean, so the node leads.",
                Some("Rule 6: a leader may yield, in a log of version 2, and has no other event."),
            ),
            StepFault::HopPast => (
                "Rule 5: an equal pair with a hop above N has no step.",
                None,
            ),
            StepFault::HopLimit | StepFault::RoundLimit | StepFault::TermLimit => {
                ("A round, a hop and a term are at most 1,000,000.", None)
            }
            StepFault::NotLeader => ("Rule 6: a leader may yield, and no other node.", None),
            StepFault::WrongReset => (
                "Rule 7: a reset is taken by a passive node, with a hop below N, and by the node that yielded, with \
                 hop N.",
                None,
            ),
            StepFault::NotReset => (WAITS_FOR_RESET, None),
        }
    }

    fn debt_rules(&self) -> (&'static str, Option<&'static str>) {
        if self.state.owed.is_some() {
            return (
                "Rule 3: what a node owes is its next event.",
                self.last.and_then(debt_rule),
            );
        }
        let rule = match (self.state.phase, self.last) {
            (Phase::Choosing { .. }, Some((_, Event::Got(Load::Reset(_))))) if self.sends_reset() =>
                {
                    "Rule 7: the node that yielded receives its reset with hop N, and owes nothing then."
                }
            (Phase::Choosing { .. }, _) => DRAWS,
            (Phase::Active { .. }, Some((_, Event::Got(_)))) =>
                "Rule 5: an active node drops a message whose pair is less than its own.",
            (Phase::Yielding, _) => WAITS_FOR_RESET,
            _ => "A node sends nothing but what it owes.",
        };
        (rule, None)
    }

    /// Why a node that draws isn't choosing.
    fn draw_rule(&self) -> &'static str {
        match self.state.phase {
            Phase::Yielding => WAITS_FOR_RESET,
            _ if self.position == 1 =>
                "Rule 1: an initiator begins by choosing in round 1, any other node begins passive.",
            _ =>
                "Rule 5: a node chooses again only where its own pair is back with hop N and dirty.",
        }
    }

    /// Why a node that receives has to draw.
    fn choice_rules(&self) -> (&'static str, Option<&'static str>) {
        match (self.state.phase, self.state.term) {
            (Phase::Choosing { round: 1 }, 1) => (DRAWS, None),
            (Phase::Choosing { round: 1 }, _) => (
                "Rule 7: a reset begins the next term, in which each node chooses in round 1.",
                Some(DRAWS),
            ),
            _ => (
                "Rule 5: its own pair is back with hop N and dirty, so the node chooses in the next round.",
                Some(DRAWS),
            ),
        }
    }

    fn sends_reset(&self) -> bool {
        matches!(self.event, Event::Sent(Load::Reset(_)))
    }

    /// A usual cause, where something that the log says points to it.
    pub(crate) fn hint<A: Allocator>(&self, log: &NodeLog<A>) -> Option<StopHint>
        ensures { IfSome result (IsSo log.now self.now) }
    {
        let nodes = log.nodes().get();
        match (self.fault, self.event, self.state.phase) {
            _ if has_each_twice(log) => Some(StopHint::EachTwice),
            (StepFault::NotOwed, Event::Sent(sent), _) => self.sending_hint(log, sent),
            (StepFault::NotChoosing, _, Phase::Yielding) => Some(StopHint::ResetNotBack { nodes }),
            (StepFault::NotChoosing, _, _) if self.position == 1 => Some(StopHint::BeginsByItself),
            (StepFault::NotChoosing | StepFault::Ended, Event::Draw(id), _)
                if self.begins_again(log, id) => { Some(StopHint::RoundAgain) }
            (StepFault::MustDraw, _, _) if self.position == 1 => Some(StopHint::WokenByMessage),
            (StepFault::MustDraw, _, _) if self.state.term > 1 => Some(StopHint::DrawsAfterReset),
            (StepFault::DrawRange, _, _) => Some(StopHint::IdRange { nodes }),
            (StepFault::Ended, Event::Sent(Load::Reset(1)), _) => Some(StopHint::YieldLeftOut),
            (StepFault::Owes, Event::Got(_), _) => self.unsent_hint(log),
            (StepFault::Owes, Event::Draw(_), _) => self.reset_hint(log),
            (StepFault::NotLeader, _, Phase::Yielding) => Some(StopHint::HasYielded),
            _ => None,
        }
    }

    /// The event after it.
    fn next<A: Allocator>(&self, log: &NodeLog<A>) -> Option<Event>
        ensures { IfSome result (λ event. numbered log.now.events (self.now.position + 1) ≡ Some event) }
    {
        event_of(log, self.position.checked_add(1)?)
    }

    /// The line of that one.
    fn next_line(&self) -> usize
        ensures { result ≡ line_number (self.now.position + 1) }
    {
        line_of(self.position) + 1
    }

    /// Where what is owed was sent, or that by its log the node never sent it.
    fn unsent_hint<A: Allocator>(&self, log: &NodeLog<A>) -> Option<StopHint>
        ensures { IfSome result (IsSo log.now self.now) }
    {
        let owed = self.state.owed?;
        Some(match sending_after(log, self.position, owed) {
            Some(later) => StopHint::SentLater {
                line: line_of(later),
            },
            None => StopHint::NeverSends,
        })
    }

    /// Whether a reset that is owed was sent after it.
    fn reset_hint<A: Allocator>(&self, log: &NodeLog<A>) -> Option<StopHint>
        ensures { IfSome result (IsSo log.now self.now) }
    {
        match self.state.owed {
            Some(reset @ Load::Reset(_)) => Some(StopHint::ResetFirst {
                is_passed: sending_after(log, self.position, reset).is_some(),
            }),
            _ => None,
        }
    }

    /// What a node may have done that sent one load and owed another.
    fn other_hint<A: Allocator>(&self, log: &NodeLog<A>, sent: Load, owed: Load) -> Option<StopHint>
        requires event { self.now.event ≡ Event.Sent sent }
        requires owed { self.now.state.owed ≡ Some owed }
        ensures { IfSome result (IsSo log.now self.now) }
    {
        if is_other(LoadDifference::RaisedHop, sent, owed) {
            return Some(StopHint::HopNotRaised);
        }
        if is_other(LoadDifference::RaisedHop, owed, sent) {
            return Some(StopHint::HopRaisedTwice);
        }
        if !is_other(LoadDifference::OneField(LoadField::Bit), owed, sent) {
            return None;
        }
        Some(match clean_start(log) {
            None if is_begun(sent) => StopHint::BitContrary,
            Some(first) if is_begun(sent) && first < self.position.saturating_sub(1) as usize =>
                StopHint::BitKept,
            _ => StopHint::OnlyBit,
        })
    }

    /// Whether a draw of this ID begins round 1 again, and the log has no reset.
    fn begins_again<A: Allocator>(&self, log: &NodeLog<A>, id: u32) -> bool
        ensures { IsTrue result → BeginsAgain log.now self.now id }
    {
        let begun = Msg {
            round: 1,
            id,
            hop: 1,
            dirty: false,
        };
        !has_reset(log) && self.next(log) == Some(Event::Sent(Load::Msg(begun)))
    }

    /// Whether the next event is a receipt that calls for this load, did it come in place of this one.
    fn is_called_later<A: Allocator>(&self, log: &NodeLog<A>, load: Load) -> bool
        ensures { IsTrue result → IsCalledNext log.now self.now load }
    {
        match self.next(log) {
            Some(Event::Got(call)) => {
                owed_after(log.nodes(), self.state, Event::Got(call)) == Some(load)
            }
            _ => false,
        }
    }

    /// What a sending may come from that the node owes nothing for, by the log of the node before it on the ring.
    pub(crate) fn missing_receipt<A: Allocator>(
        &self,
        log: &NodeLog<A>,
        before: &NodeLog<A>,
    ) -> Option<StopHint>
        ensures { IfSome result (IsSoOfBoth before.now log.now self.now) }
    {
        let call = next_sent(before, log)?;
        match (self.fault, self.event, self.state.owed) {
            (StepFault::NotOwed, Event::Sent(sent), None)
                if owed_after(log.nodes(), self.state, Event::Got(call)) == Some(sent) => {
                Some(StopHint::NeverReceived { call })
            }
            _ => None,
        }
    }

    /// What a sending that isn't owed may come from.
    fn sending_hint<A: Allocator>(&self, log: &NodeLog<A>, sent: Load) -> Option<StopHint>
        requires { self.now.event ≡ Event.Sent sent }
        ensures { IfSome result (IsSo log.now self.now) }
    {
        if self.is_called_later(log, sent) {
            return Some(StopHint::CalledLater {
                line: self.next_line(),
            });
        }
        match (self.state.owed, self.state.phase, sent) {
            (Some(owed), _, _) => self.other_hint(log, sent, owed),
            _ if event_of(log, self.position.saturating_sub(1)) == Some(self.event) => {
                Some(StopHint::SentTwice)
            }
            (None, phase, _)
                if phase != Phase::Yielding
                    && !is_begun(sent)
                    && log.events().next_receipt().is_none() => { Some(StopHint::NoReceipts) }
            (None, Phase::Choosing { .. }, Load::Msg(begun)) if begun.hop == 1 => {
                Some(StopHint::NotDrawn { id: begun.id })
            }
            (None, Phase::Choosing { .. }, Load::Reset(_)) => match self.last {
                Some((_, Event::Got(Load::Reset(_)))) => Some(StopHint::ResetBack),
                _ => None,
            },
            _ => None,
        }
    }
}

/// The rule by which an event in a state led to a debt.
fn debt_rule((before, event): (NodeState, Event)) -> Option<&'static str> {
    match (event, before.phase) {
        (Event::Draw(_), _) => Some(DRAWS),
        (Event::Yield, _) => Some("Rule 6: a leader that yields owes a reset with hop 1."),
        (Event::Got(Load::Reset(_)), _) => Some(
            "Rule 7: a passive node that receives a reset with a hop below N owes it with the hop raised by one, and \
             passes it on before it draws.",
        ),
        (Event::Got(Load::Msg(met)), Phase::Active { round, id }) => {
            Some(if (met.round, met.id) > (round, id) {
                "Rule 5: an active node that receives a greater pair becomes passive and passes the message on, the \
                 hop raised by one."
            } else {
                "Rule 5: an active node passes its own pair on with the bit dirty, where the hop is below N: somebody \
                 else has the same pair."
            })
        }
        (Event::Got(Load::Msg(_)), _) => Some(
            "Rule 4: a passive node passes each message on, the hop raised by one, the bit unchanged.",
        ),
        (Event::Sent(_), _) => None,
    }
}

/// What a node in this state owes after an event, in a ring of so many nodes.
fn owed_after(nodes: RingSize, state: NodeState, event: Event) -> Option<Load>
    ensures step { (t : NodeState) → NodeStep nodes state event t → result ≡ t.owed }
    ensures call { IfSome result (CallsFor nodes state event) }
{
    match state.step(nodes, &event) {
        Ok(after) => after.owed,
        Err(_) => None,
    }
}

/// What a node sent next after so many loads as the next one received.
fn next_sent<A: Allocator>(writer: &NodeLog<A>, reader: &NodeLog<A>) -> Option<Load>
    ensures { result ≡ slice_get (sent writer.now.events) (length (got reader.now.events)) }
{
    let mut receipts = reader.events();
    for event in writer.events() {
        if let Event::Sent(load) = event
            && receipts.next_receipt().is_none()
        {
            return Some(load);
        }
    }
    None
}

/// Whether an event is of the end of a term.
fn is_of_reset(event: Event) -> bool
    ensures { result ≡ is_of_reset event }
{
    matches!(
        event,
        Event::Yield | Event::Sent(Load::Reset(_)) | Event::Got(Load::Reset(_))
    )
}

/// Whether a log has an event of the end of a term.
fn has_reset<A: Allocator>(log: &NodeLog<A>) -> bool
    ensures { result ≡ list_any is_of_reset log.now.events }
{
    log.events().any(is_of_reset)
}

/// Whether an event sends a message of the node's own that is clean.
fn is_clean_start(event: Event) -> bool
    ensures { result ≡ starts_clean event }
{
    match event {
        Event::Sent(Load::Msg(message)) => message.hop == 1 && !message.dirty,
        _ => false,
    }
}

/// How many events of a log stand before the first such one.
fn clean_start<A: Allocator>(log: &NodeLog<A>) -> Option<usize>
    ensures { result ≡ position starts_clean log.now.events }
{
    log.events().position(is_clean_start)
}

/// Whether a load is another one than the first, and differs so from it.
fn is_other(how: LoadDifference, first: Load, load: Load) -> bool
    ensures { IsTrue result → DiffersBy how first load }
{
    first != load && how.is_between_all(&[first], &[load])
}

/// Whether the node that sends the load begins it.
pub(crate) fn is_begun(load: Load) -> bool
    ensures { IsTrue result ↔ IsBegun load }
{
    match load {
        Load::Msg(Msg { hop, .. }) | Load::Reset(hop) => hop == 1,
    }
}

/// The first event of a log after this one that sends this load.
fn sending_after<A: Allocator>(log: &NodeLog<A>, position: u32, load: Load) -> Option<u32>
    ensures { MatchOption result ((n : ℕ) → ¬ (IsSentAfter log.now position load n))
        (IsSentAfter log.now position load) }
{
    let mut number = 0;
    for event in log.events() {
        number += 1;
        if number > position && event == Event::Sent(load) {
            return Some(number);
        }
    }
    None
}
