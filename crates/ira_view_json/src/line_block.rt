ghost use Rattle.std.specs.Prelude.{◌≡◌, ◌∷◌, [], OnOk};
ghost use Rattle.ira_event.specs.Sink.{Takes};
ghost use Rattle.ira_view_json.specs.Line.{Gathers, WroteLines};
ghost use Rattle.ira_view_json.specs.View.{view};

use crate::line::line_bytes;
use crate::value::Value;
use ira_event::{Sink, write_bytes};
use ira_view_page::ShowFault;
use std::alloc::Allocator;
use std::marker::Model;

/// When so many bytes of lines are put together they are written.
const BLOCK: usize = 65_536;

/// Lines that are put together before they are written. Contracts see their text.
#[derive(Drop)]
pub(crate) struct LineBlock<A: Allocator> {
    text: Vec<u8, A>,
}

impl<A: Allocator> Model for LineBlock<A> {
    ghost use Rattle.std.specs.Prelude.{ℕ, List};
    ghost use Rattle.ira_view_json.specs.Line.{AreLines};

    ghost Value = { List ℕ };

    ghost view = { λ b. b.text.items };

    ghost invariant = { λ b. AreLines b.text.items };
}

impl<A: Allocator + Clone> LineBlock<A> {
    /// No lines.
    pub(crate) fn new(alloc: A) -> LineBlock<A>
        ensures { result ≡ [] }
    {
        LineBlock {
            text: Vec::new(alloc),
        }
    }

    /// Adds the line of a value, and writes all where they are a block.
    pub(crate) fn add<W: Sink>(&mut self, value: &Value<A>, sink: &mut W) -> Result<(), ShowFault>
        ensures wrote { WroteLines result (W.state sink.old) (W.state sink.new) }
        ensures gathered { OnOk result
            (Gathers (view value.now ∷ []) self.old self.new (W.state sink.old) (W.state sink.new)) }
    {
        let line = line_bytes(self.text.allocator().clone()?, value)?;
        self.text.extend_from_slice(&line)?;
        if self.text.len() < BLOCK {
            return Ok(());
        }
        self.flush(sink)
    }

    /// Writes all lines that there are.
    pub(crate) fn flush<W: Sink>(&mut self, sink: &mut W) -> Result<(), ShowFault>
        ensures wrote { WroteLines result (W.state sink.old) (W.state sink.new) }
        ensures all { OnOk result ((self.new ≡ []) × Takes self.old (W.state sink.old) (W.state sink.new)) }
    {
        write_bytes(&self.text, sink)?;
        self.text.clear();
        Ok(())
    }
}
