ghost use Rattle.ira_view_page.specs.Page.{AddedSome};

use crate::page::{Emphasis, Page};
use crate::width::shown_width;
use std::alloc::Allocator;

/// No line of words is as long.
const WIDTH: usize = 99;

impl<A: Allocator> Page<A> {
    /// Adds a sentence or more, filled to the width.
    pub fn paragraph(&mut self, words: &str)
        ensures { AddedSome self.old self.new }
    {
        self.begin(Emphasis::Plain);
        self.fill(2, words);
        self.end();
    }

    /// Adds the sentences on another page, filled to the width. Where that was refused, this one is too.
    pub fn paragraph_of<P: Allocator>(&mut self, text: &Page<P>)
        ensures { AddedSome self.old self.new }
    {
        match text.whole() {
            Some(words) => self.paragraph(words),
            None => self.refuse(),
        }
    }

    /// Adds a usual cause, filled to the width.
    pub fn hint(&mut self, words: &str)
        ensures { AddedSome self.old self.new }
    {
        self.begin(Emphasis::Plain);
        self.words("hint: ");
        self.fill(8, words);
        self.end();
    }

    /// Adds words from this column on, filled to the width: further lines begin there.
    fn fill(&mut self, column: usize, words: &str)
        ensures { AddedSome self.old self.new }
    {
        let mut is_first = true;
        for word in words.split_whitespace() {
            if is_first {
                is_first = false;
            } else if self.column().saturating_add(shown_width(word.as_bytes())) >= WIDTH {
                self.end();
                self.pad_to(column);
            } else {
                self.words(" ");
            }
            self.show(word.as_bytes());
        }
    }
}
