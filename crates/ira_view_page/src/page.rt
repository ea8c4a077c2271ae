ghost use Rattle.std.specs.Prelude.{◌≡◌, ◌≢◌, ◌++◌, [], ◌<◌, ℕ, IfSome, List, MatchOption, MatchResult, None, Some};
ghost use Rattle.std.specs.Prelude.{codes, decimal, length, slice_index};
ghost use Rattle.ira_view_page.specs.Lines.{IsLastLine};
ghost use Rattle.ira_view_page.specs.Page.{Added, AddedBy, kept, mark_text};
ghost use Rattle.ira_view_page.specs.Printable.{IsPrintable, hex_digit_of, shown, shown_byte};

use crate::page_text::PageText;
use ira_event::OutOfMemory;
use itoa::Buffer;
use std::alloc::Allocator;
use std::marker::Model;

/// Whether a line is the one that the answer speaks of.
#[derive(Clone, Copy, Debug, PartialEq, Eq)]
pub enum Emphasis {
    Plain,
    Named,
}

/// Lines of printable ASCII, put together in memory. It keeps whether a growth was refused, and takes nothing more
/// after that. Contracts see it as the list of its bytes, while it is whole.
#[derive(Drop)]
pub struct Page<A: Allocator> {
    text: Vec<u8, A>,
    is_whole: bool,
}

impl<A: Allocator> Model for Page<A> {
    ghost use Rattle.std.specs.Prelude.{ℕ, List, Option};
    ghost use Rattle.ira_view_page.specs.Page.{kept};
    ghost use Rattle.ira_view_page.specs.Printable.{IsPrintable};

    ghost Value = { Option (List ℕ) };

    ghost view = { λ p. kept p.is_whole p.text.items };

    ghost invariant = { λ p. IsPrintable p.text.items };
}

impl<A: Allocator> Page<A> {
    /// An empty page. It takes no memory yet.
    pub fn new(alloc: A) -> Page<A>
        ensures { result ≡ Some [] }
    {
        Page {
            text: Vec::new(alloc),
            is_whole: true,
        }
    }

    /// A page with the empty line that comes after an answer.
    pub fn after_answer(alloc: A) -> Page<A>
        ensures { Added (Some []) (codes "\n") result }
    {
        let mut page = Page::new(alloc);
        page.blank();
        page
    }

    /// What is on it; an error exactly where a growth was refused.
    pub fn finish(self) -> Result<PageText<A>, OutOfMemory>
        ensures { MatchResult result (λ text. self ≡ Some text) (λ _. self ≡ None) }
    {
        if self.is_whole {
            Ok(PageText::new(self.text))
        } else {
            Err(OutOfMemory)
        }
    }

    /// How many bytes are on it.
    pub fn len(&self) -> usize
        ensures { IfSome self.now (λ text. result ≡ length text) }
    {
        self.text.len()
    }

    /// What is on it, where it is whole.
    pub(crate) fn whole(&self) -> Option<&str>
        ensures text { MatchOption result (self.now ≡ None) (λ text. self.now ≡ Some text.now) }
        ensures printable { IfSome result (λ text. IsPrintable text.now) }
    {
        if !self.is_whole {
            return None;
        }
        match str::from_utf8(&self.text) {
            Ok(text) => Some(text),
            Err(_) => unreachable!(),
        }
    }

    /// Adds words.
    pub fn words(&mut self, words: &str)
        requires { IsPrintable words.now }
        ensures { Added self.old words.now self.new }
    {
        self.push(words.as_bytes());
    }

    /// Adds bytes of any kind, each that isn't printable as those that show it.
    pub fn show(&mut self, bytes: &[u8])
        ensures { Added self.old (shown bytes.now) self.new }
    {
        for byte in bytes {
            self.show_byte(*byte);
        }
    }

    /// Adds a number in plain decimal.
    pub fn number(&mut self, n: u64)
        ensures { Added self.old (decimal n) self.new }
    {
        let mut buffer = Buffer::new();
        self.words(buffer.format(n));
    }

    /// Adds words, and a number after them.
    pub fn numbered(&mut self, words: &str, n: u32)
        requires { IsPrintable words.now }
        ensures { Added self.old (words.now ++ decimal n) self.new }
    {
        self.words(words);
        self.number(n as u64);
    }

    /// Adds a line of these words.
    pub fn line(&mut self, mark: Emphasis, words: &str)
        requires { IsPrintable words.now }
        ensures { Added self.old (mark_text mark ++ words.now ++ codes "\n") self.new }
    {
        self.begin(mark);
        self.words(words);
        self.end();
    }

    /// Begins a line: with `> ` or two spaces.
    pub fn begin(&mut self, mark: Emphasis)
        ensures { Added self.old (mark_text mark) self.new }
    {
        match mark {
            Emphasis::Plain => self.push(b"  "),
            Emphasis::Named => self.push(b"> "),
        }
    }

    /// Ends a line.
    pub fn end(&mut self)
        ensures { Added self.old (codes "\n") self.new }
    {
        self.push(b"\n");
    }

    /// Adds an empty line.
    pub fn blank(&mut self)
        ensures { Added self.old (codes "\n") self.new }
    {
        self.end();
    }

    /// Adds what is on another page. Where that was refused, this one is too.
    pub fn add<P: Allocator>(&mut self, other: &Page<P>)
        ensures { AddedBy (λ text. text) self.old other.now self.new }
    {
        match other.whole() {
            Some(text) => self.words(text),
            None => self.refuse(),
        }
    }

    /// How many characters stand on the last line so far.
    pub fn column(&self) -> usize
        ensures { IfSome self.now (λ text. (line : List ℕ) × IsLastLine text line × (result ≡ length line)) }
    {
        match last_feed(&self.text) {
            Some(feed) => self.text.len() - feed - 1,
            None => self.text.len(),
        }
    }

    /// Keeps that a growth was refused.
    pub(crate) fn refuse(&mut self)
        ensures { self.new ≡ None }
    {
        self.is_whole = false;
    }

    /// Adds printable bytes.
    pub(crate) fn push(&mut self, text: &[u8])
        requires { IsPrintable text.now }
        ensures { Added self.old text.now self.new }
    {
        if self.is_whole {
            self.is_whole = self.text.extend_from_slice(text).is_ok();
        }
    }

    fn show_byte(&mut self, byte: u8)
        ensures { Added self.old (shown_byte byte) self.new }
    {
        match byte {
            b'\t' => self.push(b"\\t"),
            b'\r' => self.push(b"\\r"),
            b' '..=b'~' => self.push(&[byte]),
            _ => self.push(&[b'\\', b'x', hex_digit(byte / 16), hex_digit(byte % 16)]),
        }
    }
}

/// Where the text's last line feed stands.
fn last_feed(text: &[u8]) -> Option<usize>
    ensures { MatchOption result ((k : ℕ) → k < length text.now → slice_index text.now k ≢ 10)
        (λ i. (i < length text.now) × (slice_index text.now i ≡ 10)
        × ((k : ℕ) → i < k → k < length text.now → slice_index text.now k ≢ 10)) }
{
    text.iter().rposition(|c| *c == b'\n')
}

/// The digit of a number below 16.
fn hex_digit(digit: u8) -> u8
    requires { digit < 16 }
    ensures { result ≡ hex_digit_of digit }
{
    if digit < 10 {
        b'0' + digit
    } else {
        b'a' + digit - 10
    }
}
