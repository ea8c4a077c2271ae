use crate::load_differences::{exchanged, field_of, noun_of};
use crate::numbered::fill;
use crate::place_list::add_places;
use ira_event::Load;
use ira_view_evidence::{LoadDifference, LoadField};
use ira_view_page::Page;
use std::alloc::Allocator;

/// A usual cause why a link doesn't match that speaks of the ring: it explains all links.
#[derive(Drop)]
pub(crate) enum RingHint<A: Allocator> {
    /// In this order of the places all links match.
    OtherOrder(Vec<u8, A>),
    /// The logs from one place to another fit one another, and so do the others, and each is that of a node.
    TwoRuns(u8, u8, u8, u8),
    /// The logs of these places have the same records.
    SameRecords(u8, u8),
    /// Each record of the log of a place stands twice, one after the other.
    EachTwice(u8),
    /// What the node of a place recorded differs so from what the one before it sent and the one after it received,
    /// wherever it does.
    OneRecorder(u8, u8, u8, LoadDifference),
    /// The node of a place received one load of the node before it, passed it on as another, and recorded neither; or this
    /// one went past it.
    Hole(u8, Load, u8, Load),
    /// The log of a place is that of a node, and fits neither that before it nor that after it.
    AnotherRun(u8, u8, u8),
}

/// At most so many places of an order are shown.
const MOST_PLACES: usize = 16;

impl<A: Allocator> RingHint<A> {
    /// Adds its sentence.
    pub(crate) fn print<P: Allocator>(&self, text: &mut Page<P>) {
        match self {
            RingHint::OtherOrder(order) => {
                text.words("with the nodes in the order ");
                add_places(text, order, MOST_PLACES);
                text.words(" all links match: places are to be in the order of the ring.");
            }
            RingHint::TwoRuns(first, last, ..) if first == last => text.words(
                "neither log fits the other, and each is that of a node: perhaps they are of two runs.",
            ),
            RingHint::TwoRuns(first, last, others_first, others_last) => fill(
                text,
                "the logs of nodes {} to {} fit one another, and so do those of nodes {} to {}, but not these with \
                 those: perhaps they are of two runs.",
                [*first, *last, *others_first, *others_last],
            ),
            RingHint::SameRecords(place, other) => fill(
                text,
                "the logs of nodes {} and {} have the same records: perhaps one is a copy of the other.",
                [*place, *other],
            ),
            RingHint::EachTwice(place) => fill(
                text,
                "in the log of node {} each record stands twice, one after the other: it writes each twice.",
                [*place],
            ),
            RingHint::OneRecorder(place, before, after, how) => {
                fill(
                    text,
                    "the log of node {} differs from what node {} sent and from what node {} received in nothing but ",
                    [*place, *before, *after],
                );
                match field_of(*how) {
                    Some(field) => {
                        text.words("the ");
                        text.words(noun_of(field));
                        fill(
                            text,
                            ": perhaps node {} records another than crosses its links",
                            [*place],
                        );
                        text.words(if field == LoadField::Id {
                            ", or its log is of another run."
                        } else {
                            "."
                        });
                    }
                    None => {
                        text.words("that ");
                        text.words(exchanged(*how));
                        text.words(" are exchanged: their order is ROUND ID HOP BIT.");
                    }
                }
            }
            RingHint::Hole(place, load, before, passed) if load == passed => {
                fill(text, "node {} sent ", [*before]);
                text.load(*load);
                fill(
                    text,
                    ", which not node {} received but the next one: perhaps it was sent to the wrong node.",
                    [*place],
                );
            }
            RingHint::Hole(place, load, before, passed) => {
                fill(text, "node {} records neither that it received ", [*place]);
                text.load(*load);
                fill(
                    text,
                    ", which node {} sent, nor that it passed it on as ",
                    [*before],
                );
                text.load(*passed);
                text.words(": perhaps both records are missing.");
            }
            RingHint::AnotherRun(place, before, after) => fill(
                text,
                "the log of node {} is that of a node, and fits neither what node {} sent nor what node {} received; \
                 the others fit one another: perhaps it is of another run.",
                [*place, *before, *after],
            ),
        }
    }
}
