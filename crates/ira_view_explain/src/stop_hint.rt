use crate::numbered::fill;
use ira_event::Load;
use ira_view_page::{Hint, Page};
use std::alloc::Allocator;

/// A usual cause why an event has no step.
#[derive(Clone, Copy)]
pub(crate) enum StopHint {
    BeginsByItself,
    WokenByMessage,
    /// A new term began, and its `yield` and resets are not recorded.
    RoundAgain,
    DrawsAfterReset,
    YieldLeftOut,
    HasYielded,
    HopNotRaised,
    HopRaisedTwice,
    BitContrary,
    BitKept,
    OnlyBit,
    ResetBack,
    /// A node that yielded draws before its reset is back, in a ring of so many nodes.
    ResetNotBack { nodes: u8 },
    /// An ID is none of a ring of so many nodes.
    IdRange { nodes: u8 },
    /// What is owed was sent on this line, after the receipt of something else.
    SentLater { line: usize },
    /// What is owed was never sent.
    NeverSends,
    /// The node draws before it passes a reset on, or it never does.
    ResetFirst { is_passed: bool },
    /// The receipt that calls for a sending stands on this line, after it.
    CalledLater { line: usize },
    /// The draw of this ID isn't recorded before its sending.
    NotDrawn { id: u32 },
    /// The sending is the event before it once more.
    SentTwice,
    /// Each event of the log is there twice, one after the other.
    EachTwice,
    /// The node before sent this, which calls for the sending, and no receipt of it is recorded.
    NeverReceived { call: Load },
    /// The log has sendings that pass something on, and no receipt.
    NoReceipts,
}

impl Hint for StopHint {
    fn print<A: Allocator>(&self, text: &mut Page<A>) {
        let number = match *self {
            StopHint::ResetNotBack { nodes } | StopHint::IdRange { nodes } => u64::from(nodes),
            StopHint::SentLater { line } | StopHint::CalledLater { line } => line as u64,
            StopHint::NotDrawn { id } => u64::from(id),
            _ => 0,
        };
        let words = match *self {
            StopHint::BeginsByItself =>
                "a node that begins by itself has `start initiator` on line 4.",
            StopHint::WokenByMessage => "a node that a message woke has `start passive` on line 4.",
            StopHint::RoundAgain =>
                "it chooses in round 1 again, and the log has no reset: perhaps a new term began, and its `yield` and \
                 resets are not recorded.",
            StopHint::DrawsAfterReset => "after a reset each node draws, initiator or not.",
            StopHint::YieldLeftOut =>
                "the `yield` is recorded too, in front of its `send reset 1`.",
            StopHint::HasYielded => "it has yielded in this term already.",
            StopHint::HopNotRaised => "the hop is not raised.",
            StopHint::HopRaisedTwice => "the hop is raised twice.",
            StopHint::BitContrary => "the bit means the contrary: `clean` is \"unique so far\".",
            StopHint::BitKept =>
                "the bit was kept from an earlier round: each own message starts clean.",
            StopHint::OnlyBit => "only the bit differs.",
            StopHint::ResetBack =>
                "its own reset is back: the node that yielded takes it off the ring.",
            StopHint::ResetNotBack { .. } =>
                "its reset is not back yet: the node draws after `recv reset {}`.",
            StopHint::IdRange { .. } => "IDs are 1 to N, and N is {} (line 2).",
            StopHint::SentLater { .. } =>
                "that sending stands on line {}: a message is passed on before the next one is taken.",
            StopHint::NeverSends =>
                "that sending stands nowhere below: by its log the node never made it.",
            StopHint::ResetFirst { is_passed } => {
                text.words("a reset is passed on before the node draws in the new term");
                if is_passed {
                    "."
                } else {
                    "; by its log the node never passed it on."
                }
            }
            StopHint::CalledLater { .. } =>
                "the receipt on line {} calls for this sending, and is recorded after it: record a message as soon as \
                 it is taken.",
            StopHint::NotDrawn { .. } =>
                "a draw of {} may not be recorded, or stands after its sending.",
            StopHint::SentTwice =>
                "it is the sending before it once more: it was recorded twice, or sent twice.",
            StopHint::EachTwice =>
                "each record stands twice, one after the other: it is written twice.",
            StopHint::NeverReceived { call } => {
                text.words("by its log the node never received ");
                text.load(call);
                ", which the node before it sent next and which calls for this: perhaps that receipt is missing."
            }
            StopHint::NoReceipts =>
                "the log has no receipt at all: perhaps none is recorded. Record each message as it is taken.",
        };
        fill(text, words, [number]);
    }
}
