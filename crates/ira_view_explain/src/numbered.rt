ghost use Rattle.ira_view_page.specs.Printable.{IsPrintable};

use ira_view_page::Page;
use std::alloc::Allocator;

/// A page of words, and a number after them.
pub(crate) fn numbered_page<A: Allocator>(alloc: A, words: &str, number: u32) -> Page<A>
    requires { IsPrintable words.now }
{
    let mut text = Page::new(alloc);
    text.numbered(words, number);
    text
}

/// Adds words, with numbers in the places of `{}`.
pub(crate) fn fill<A: Allocator, T: Copy + Into<u64>, const N: usize>(
    text: &mut Page<A>,
    words: &str,
    numbers: [T; N],
) {
    let mut next = 0usize;
    for byte in words.as_bytes() {
        match (*byte, numbers.get(next)) {
            (b'{', Some(number)) => {
                text.number((*number).into());
                next = next.saturating_add(1);
            }
            (b'}', _) => {}
            _ => text.show(&[*byte]),
        }
    }
}
