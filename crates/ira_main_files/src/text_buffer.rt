ghost use Rattle.std.specs.Prelude.{◌≡◌, ◌≢◌, ◌≤◌, ◌+◌, true, [], Err, IfOk, OnErr};
ghost use Rattle.ira_main_files.specs.ReadText.{IsReadTo};

use crate::counting_reader::CountingReader;
use crate::read_text::read_text;
use crate::shelf_fault::ShelfFault;
use ira_event::MAX_TEXT;
use std::alloc::Allocator;
use std::io::Read;
use std::marker::Model;

/// A text that is read whole. Its buffer stays for the next text, which is read over what is there.
#[derive(Drop)]
pub struct TextBuffer<A: Allocator> {
    /// The text, and after it what is no part of it.
    buffer: Vec<u8, A>,
    /// How many bytes the text has.
    filled: usize,
}

impl<A: Allocator> Model for TextBuffer<A> {
    ghost use Rattle.std.specs.Prelude.{ℕ, ◌≤◌, ◌+◌, List, length, take};
    ghost use Rattle.ira_event.specs.Limits.{MAX_TEXT};

    ghost Value = { List ℕ };

    ghost view = { λ b. take b.filled b.buffer.items };

    ghost invariant = { λ b. (b.filled ≤ length b.buffer.items) × (length b.buffer.items ≤ MAX_TEXT + 1) };
}

impl<A: Allocator> TextBuffer<A> {
    /// A text without bytes, which takes no memory yet.
    pub fn new(alloc: A) -> TextBuffer<A>
        ensures { result ≡ [] }
    {
        TextBuffer {
            buffer: Vec::new(alloc),
            filled: 0,
        }
    }

    /// The bytes of the text.
    pub fn bytes(&self) -> &[u8]
        ensures { result.now ≡ self.now }
    {
        &self.buffer[..self.filled]
    }

    /// Takes all bytes of the text away.
    pub fn clear(&mut self)
        ensures { self.new ≡ [] }
    {
        self.filled = 0;
    }

    /// Reads what the input has left, to its end or to one more than `MAX_TEXT`, whichever comes first. That is
    /// the text then; where a read fails, or memory runs out, the text has no bytes.
    pub fn fill<I: Read>(&mut self, input: &mut CountingReader<I>) -> Result<(), ShelfFault>
        ensures text { IfOk result (λ _. IsReadTo (MAX_TEXT + 1) input.old input.new self.new) }
        ensures err { OnErr result (self.new ≡ []) }
        ensures reads { input.new.reads ≤ input.old.reads + (MAX_TEXT + 1) }
        ensures device { result ≡ Err ShelfFault.Device
            → (input.new.has_failed ≡ true) × (input.new.is_over ≡ true) }
        ensures found { result ≢ Err ShelfFault.NotFound }
    {
        self.filled = 0;
        self.filled = read_text(input, &mut self.buffer)?;
        Ok(())
    }
}
