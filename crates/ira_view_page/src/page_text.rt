ghost use Rattle.std.specs.Prelude.{◌≡◌, ◌==◌, length, string_bytes};
ghost use Rattle.ira_event.specs.Sink.{Wrote};
ghost use Rattle.ira_view_page.specs.Printable.{IsPrintable};

use ira_event::{Sink, WriteFault, write_bytes};
use std::alloc::Allocator;
use std::marker::Model;

/// The text of a page that is whole: lines of printable ASCII. Contracts see it as the list of its bytes.
#[derive(Drop)]
pub struct PageText<A: Allocator> {
    text: Vec<u8, A>,
}

impl<A: Allocator> Model for PageText<A> {
    ghost use Rattle.std.specs.Prelude.{ℕ, List};
    ghost use Rattle.ira_view_page.specs.Printable.{IsPrintable};

    ghost Value = { List ℕ };

    ghost view = { λ p. p.text.items };

    ghost invariant = { λ p. IsPrintable p.text.items };
}

impl<A: Allocator> PageText<A> {
    pub(crate) fn new(text: Vec<u8, A>) -> PageText<A>
        requires { IsPrintable text.items }
        ensures { result ≡ text.items }
    {
        PageText { text }
    }

    pub fn bytes(&self) -> &[u8]
        ensures text { result.now ≡ self.now }
        ensures printable { IsPrintable self.now }
    {
        &self.text
    }

    pub fn as_str(&self) -> &str
        ensures text { result.now ≡ self.now }
        ensures printable { IsPrintable self.now }
    {
        match str::from_utf8(&self.text) {
            Ok(text) => text,
            Err(_) => unreachable!(),
        }
    }

    pub fn len(&self) -> usize
        ensures { result ≡ length self.now }
    {
        self.text.len()
    }

    pub fn is_empty(&self) -> bool
        ensures { result ≡ (length self.now == 0) }
    {
        self.text.is_empty()
    }

    /// Writes all of it.
    pub fn write<W: Sink>(&self, sink: &mut W) -> Result<(), WriteFault>
        ensures text { Wrote result self.now (W.state sink.old) (W.state sink.new) }
        ensures printable { IsPrintable self.now }
    {
        write_bytes(&self.text, sink)
    }

    pub fn into_string(self) -> String<A>
        ensures text { string_bytes result ≡ self }
        ensures printable { IsPrintable self }
    {
        match String::from_utf8(self.text) {
            Ok(text) => text,
            Err(_) => unreachable!(),
        }
    }
}
