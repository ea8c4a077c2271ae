use crate::load_differences::{exchanged, field_of, noun_of};
use crate::numbered::fill;
use crate::ring_hint::RingHint;
use ira_event::Load;
use ira_node::NodeState;
use ira_view_evidence::{LoadDifference, LoadField};
use ira_view_page::Page;
use std::alloc::Allocator;

/// How many receipts of a link aren't their sendings.
#[derive(Clone, Copy, PartialEq, Eq)]
pub(crate) enum RowCount {
    One,
    Several,
    /// Several, and each is another.
    All,
}

/// A usual cause why a link doesn't match: it explains all that the two nodes recorded of the link.
#[derive(Drop)]
pub(crate) enum LinkHint<'a, A: Allocator> {
    Ring(RingHint<A>),
    /// So many receipts aren't their sendings, and differ from them so.
    Rows(LoadDifference, RowCount),
    /// The log of this sender, in this file, ends in this line, where it owes what was received.
    OwedAtEnd(u8, &'a str, usize),
    /// Each sending without a receipt is one that this reader drops, this one first, in this state.
    Dropped(u8, NodeState, Load),
    /// This sending is the one before it once more.
    SentTwice(u32),
    /// Sendings from this number on, so many, have no receipt.
    NoReceipt(u32, u32),
    /// This receipt is of the load before it, or this writer's sending of it isn't recorded.
    CameTwice(u32, u8),
    /// Receipts from this number on, so many, have no sending of this writer.
    NoSending(u32, u32, u8),
    /// The receipts from one number to another are the sendings of these numbers, in another order.
    Reordered(u32, u32),
    /// What was received is nowhere among what this writer sent, nor is among its receipts what it would be passed on
    /// from, which was sent to it.
    NeverSent(u8, Load, Option<Load>),
}

/// The number of the last of so many from a first one on.
fn last_of(first: u32, count: u32) -> u32 {
    first.saturating_add(count).saturating_sub(1)
}

/// Adds how so many receipts differ from their sendings.
fn print_rows<A: Allocator>(text: &mut Page<A>, how: LoadDifference, rows: RowCount) {
    match (field_of(how), how, rows) {
        (Some(LoadField::Bit), _, RowCount::All) => text.words(
            "only the bit differs, in every row: one side means the contrary by it. `clean` is \"unique so far\".",
        ),
        (Some(LoadField::Bit), _, _) => text.words(
            "only the bit differs: the link changed it, or one side records it after a change.",
        ),
        (Some(field), _, RowCount::One) => {
            text.words("only the ");
            text.words(noun_of(field));
            text.words(
                " of this message differs: the link changed it, or one side recorded it wrongly.",
            );
        }
        (_, LoadDifference::RaisedHop | LoadDifference::LoweredHop, _) => text.words(
            "only the hop differs, by one: perhaps one side records it before it is raised, the other after, or the log \
             of a node between them is missing.",
        ),
        (Some(field), _, _) => {
            text.words("in each row that differs it is the ");
            text.words(noun_of(field));
            text.words(" alone: one side records another ");
            text.words(noun_of(field));
            text.words(" than crosses the link.");
        }
        (None, _, _) => {
            text.words(exchanged(how));
            text.words(" are exchanged in each row that differs: their order is ROUND ID HOP BIT.");
        }
    }
}

impl<A: Allocator> LinkHint<'_, A> {
    /// Whether logs of two runs are likelier.
    pub(crate) fn is_doubtful(&self) -> bool {
        matches!(
            self,
            LinkHint::Rows(
                LoadDifference::OneField(LoadField::Id),
                RowCount::Several | RowCount::All
            )
        )
    }

    /// Adds its sentence.
    pub(crate) fn print<P: Allocator>(&self, text: &mut Page<P>) {
        match self {
            LinkHint::Ring(hint) => hint.print(text),
            LinkHint::Rows(how, rows) => print_rows(text, *how, *rows),
            LinkHint::OwedAtEnd(writer, file, line) => {
                fill(text, "the log of node {} ends (", [*writer]);
                text.place(file, *line);
                text.words(
                    ") where it owes exactly this message: its sending is not recorded. Where the node was killed \
                     before it wrote that, `ira mend --out DIR` ends the logs where they fit together.",
                );
            }
            LinkHint::Dropped(reader, state, load) => {
                fill(text, "node {} was then ", [*reader]);
                text.state(state);
                text.words(", so it drops ");
                text.load(*load);
                text.words(
                    " for its lesser pair: a dropped message is a receipt too, and is recorded.",
                );
            }
            LinkHint::SentTwice(sending) => fill(
                text,
                "sendings {} and {} are the same message: it was recorded twice, or sent twice.",
                [sending.saturating_sub(1), *sending],
            ),
            LinkHint::NoReceipt(first, 1) => fill(
                text,
                "from receipt {} on each is the sending after its own: sending {} was lost, or its receipt is not \
                 recorded.",
                [*first, *first],
            ),
            LinkHint::NoReceipt(first, count) => fill(
                text,
                "from receipt {} on each is the sending {} after its own: sendings {} to {} were lost, or their \
                 receipts are not recorded.",
                [*first, *count, *first, last_of(*first, *count)],
            ),
            LinkHint::CameTwice(receipt, writer) => fill(
                text,
                "from receipt {} on each is the sending before its own: message {} came twice, or its receipt is \
                 recorded twice, or a sending of node {} is not recorded.",
                [*receipt, receipt.saturating_sub(1), u32::from(*writer)],
            ),
            LinkHint::NoSending(first, 1, writer) => fill(
                text,
                "without receipt {} all others are sendings, in their order: a sending of node {} is not recorded.",
                [*first, u32::from(*writer)],
            ),
            LinkHint::NoSending(first, count, writer) => fill(
                text,
                "without receipts {} to {} all others are sendings, in their order: sendings of node {} are not \
                 recorded.",
                [*first, last_of(*first, *count), u32::from(*writer)],
            ),
            LinkHint::Reordered(first, last) => {
                if last_of(*first, 2) == *last {
                    fill(
                        text,
                        "receipts {} and {} are sendings {} and {}",
                        [*first, *last, *last, *first],
                    );
                } else {
                    fill(
                        text,
                        "receipts {} to {} are the sendings of these numbers in another order",
                        [*first, *last],
                    );
                }
                text.words(": the link changed their order, or the records were sorted.");
            }
            LinkHint::NeverSent(writer, load, call) => {
                fill(text, "by its log node {} never sent ", [*writer]);
                text.load(*load);
                if let Some(call) = call {
                    text.words(", nor received ");
                    text.load(*call);
                    text.words(
                        ", which was sent to it and calls for that: perhaps both records are missing",
                    );
                }
                text.words(".");
            }
        }
    }
}
