ghost use Rattle.std.specs.Prelude.{◌≡◌, ◌+◌, ◌≤◌, [], ◌++◌, length, decimal};
ghost use Rattle.ira_event.specs.Limits.{MAX_LINE};
ghost use Rattle.ira_event.specs.Sink.{Wrote};

use crate::sink::Sink;
use crate::write::{WriteFault, write_bytes};
use itoa::Buffer;
use std::marker::Model;

/// The most bytes that a line on the stack has.
const MAX_LINE: usize = 128;

/// A short piece of a text, as one line, that is put together on the stack and then written at once:
/// one push where the sink takes it whole. Contracts see it as the list of its bytes.
#[derive(Drop)]
pub struct Line {
    bytes: [u8; MAX_LINE],
    len: usize,
}

impl Model for Line {
    ghost use Rattle.std.specs.Prelude.{ℕ, ◌≤◌, List, take};
    ghost use Rattle.ira_event.specs.Limits.{MAX_LINE};

    ghost Value = { List ℕ };

    ghost view = { λ line. take line.len line.bytes };

    ghost invariant = { λ line. line.len ≤ MAX_LINE };
}

impl Line {
    pub fn new() -> Line
        ensures { result ≡ [] }
    {
        Line {
            bytes: [0; MAX_LINE],
            len: 0,
        }
    }

    /// Takes all bytes away, so that another line can be put together.
    pub(crate) fn clear(&mut self)
        ensures { self.new ≡ [] }
    {
        self.len = 0;
    }

    /// Adds these bytes at the end.
    pub fn add(&mut self, bytes: &[u8])
        requires { length self.old + length bytes.now ≤ MAX_LINE }
        ensures text { self.new ≡ self.old ++ bytes.now }
        ensures len { length self.new ≡ length self.old + length bytes.now }
    {
        let end = self.len + bytes.len();
        self.bytes[self.len..end].copy_from_slice(bytes);
        self.len = end;
    }

    /// Adds a number in plain decimal at the end.
    pub fn add_number(&mut self, n: u32)
        requires { length self.old + 10 ≤ MAX_LINE }
        ensures text { self.new ≡ self.old ++ decimal n }
        ensures len { length self.new ≤ length self.old + 10 }
    {
        self.add(Buffer::new().format(n).as_bytes());
    }

    /// Adds a count in plain decimal at the end.
    pub fn add_count(&mut self, n: u64)
        requires { length self.old + 20 ≤ MAX_LINE }
        ensures text { self.new ≡ self.old ++ decimal n }
        ensures len { length self.new ≤ length self.old + 20 }
    {
        self.add(Buffer::new().format(n).as_bytes());
    }

    /// Writes the line.
    pub fn write<W: Sink>(&self, sink: &mut W) -> Result<(), WriteFault>
        ensures { Wrote result self.now (W.state sink.old) (W.state sink.new) }
    {
        write_bytes(&self.bytes[..self.len], sink)
    }
}
