use crate::numbered::fill;
use crate::place_list::add_places;
use ira_view_page::{Hint, Page};
use std::alloc::Allocator;

/// A usual cause why logs aren't those of one ring.
#[derive(Drop)]
pub(crate) enum HeadsHint<A: Allocator> {
    /// One that names nothing of the heads.
    Words(&'static str),
    /// No log is of these places.
    MissingPlaces(Vec<u8, A>),
    /// This place is that of two logs.
    PlaceTwice(u8),
    /// These logs are of each other's place.
    Exchanged(u8, u8),
}

/// At most so many places are shown that have no log.
const MOST_PLACES: usize = 8;

impl<A: Allocator> Hint for HeadsHint<A> {
    fn print<P: Allocator>(&self, text: &mut Page<P>) {
        match self {
            HeadsHint::Words(words) => text.show(words.as_bytes()),
            HeadsHint::MissingPlaces(places) => {
                text.words("no file is of place ");
                add_places(text, places, MOST_PLACES);
                text.words(".");
            }
            HeadsHint::PlaceTwice(place) => {
                text.numbered("place ", u32::from(*place));
                text.words(" is there twice.");
            }
            HeadsHint::Exchanged(log, other) => fill(
                text,
                "logs {} and {} hold each other's places: their order, their names, or their `place` lines are exchanged.",
                [*log, *other],
            ),
        }
    }
}
