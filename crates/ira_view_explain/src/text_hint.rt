use ira_view_page::{Hint, Page};
use std::alloc::Allocator;

/// A usual cause why a text is no log's.
#[derive(Clone, Copy)]
pub(crate) enum TextHint {
    /// One that names nothing of the text.
    Words(&'static str),
    /// The end line counts so many more than there are: the lines of the head, or all, where they are as many as these.
    CountedMore(usize),
}

impl Hint for TextHint {
    fn print<A: Allocator>(&self, text: &mut Page<A>) {
        match *self {
            TextHint::Words(words) => text.show(words.as_bytes()),
            TextHint::CountedMore(4 | 5) => {
                text.words("the head is counted too: count the records alone.");
            }
            TextHint::CountedMore(count) => {
                text.number_of(count, "record");
                text.words(" fewer than the writer counted: lines were lost.");
            }
        }
    }
}
