use ira_view_page::Page;
use std::alloc::Allocator;

/// Adds places with commas between them, and two points after so many where there are more.
pub(crate) fn add_places<A: Allocator>(text: &mut Page<A>, places: &[u8], most: usize) {
    for i in 0..places.len().min(most) {
        if i > 0 {
            text.words(", ");
        }
        text.number(places[i] as u64);
    }
    if places.len() > most {
        text.words(", ..");
    }
}
