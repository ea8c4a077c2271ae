ghost use Rattle.ira_view_page.specs.Numbers.{listed_text, more_text, number_of_text, ordinal_text, places_text};
ghost use Rattle.ira_view_page.specs.Page.{Added, AddedSome, carets_text, spaces};
ghost use Rattle.ira_view_page.specs.Printable.{IsPrintable};

use crate::page::Page;
use itoa::Buffer;
use std::alloc::Allocator;

/// The most places that are named.
const NAMED: usize = 8;

impl<A: Allocator> Page<A> {
    /// Adds a number with commas between its thousands, as 67,108,864.
    pub fn grouped(&mut self, n: u64)
        ensures { AddedSome self.old self.new }
    {
        let mut buffer = Buffer::new();
        let digits = buffer.format(n).as_bytes();
        for i in 0..digits.len() {
            if i > 0 && (digits.len() - i).is_multiple_of(3) {
                self.words(",");
            }
            self.show(&digits[i..i + 1]);
        }
    }

    /// Adds a number that says which one in a row, as in 1st.
    pub fn ordinal(&mut self, n: u32)
        ensures { Added self.old (ordinal_text n) self.new }
    {
        self.number(n as u64);
        match (n % 100, n % 10) {
            (11..=13, _) => self.words("th"),
            (_, 1) => self.words("st"),
            (_, 2) => self.words("nd"),
            (_, 3) => self.words("rd"),
            _ => self.words("th"),
        }
    }

    /// Adds so many things, with the word for one of them.
    pub fn number_of(&mut self, n: usize, thing: &str)
        requires { IsPrintable thing.now }
        ensures { Added self.old (number_of_text n thing.now) self.new }
    {
        self.number(n as u64);
        self.words(" ");
        self.words(thing);
        if n != 1 {
            self.words("s");
        }
    }

    /// Adds some places: at most eight by name, and how many there are besides.
    pub fn places(&mut self, places: &[u8])
        ensures { Added self.old (places_text places.now) self.new }
    {
        let named = places.len().min(NAMED);
        for i in 0..named {
            self.listed(i == 0, places[i]);
        }
        self.unnamed(places.len() - named);
    }

    /// Adds a place of a list, with a comma before it where it isn't the first.
    fn listed(&mut self, is_first: bool, place: u8)
        ensures { Added self.old (listed_text is_first place) self.new }
    {
        if !is_first {
            self.words(", ");
        }
        self.number(place as u64);
    }

    /// Adds how many places there are besides, where there are any.
    fn unnamed(&mut self, count: usize)
        ensures { Added self.old (more_text count) self.new }
    {
        if count > 0 {
            self.words(" and ");
            self.number(count as u64);
            self.words(" more");
        }
    }

    /// Adds spaces up to a column, counted from 0.
    pub fn pad_to(&mut self, column: usize)
        ensures { AddedSome self.old self.new }
    {
        self.spaces(column.saturating_sub(self.column()));
    }

    /// Adds a number that ends at a column, counted from 0, or where there is room.
    pub fn number_to(&mut self, column: usize, n: u64)
        ensures { AddedSome self.old self.new }
    {
        let mut buffer = Buffer::new();
        self.pad_to(column.saturating_sub(buffer.format(n).len()));
        self.number(n);
    }

    /// Adds so many spaces.
    pub fn spaces(&mut self, count: usize)
        ensures { Added self.old (spaces count) self.new }
    {
        for _ in 0..count {
            self.words(" ");
        }
    }

    /// Adds so many carets, one at least.
    pub fn carets(&mut self, count: usize)
        ensures { Added self.old (carets_text count) self.new }
    {
        for _ in 0..count.max(1) {
            self.words("^");
        }
    }
}
