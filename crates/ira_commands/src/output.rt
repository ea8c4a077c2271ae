ghost use Rattle.ira_commands.specs.Output.{WroteOutput, printed_by};
ghost use Rattle.ira_commands.specs.Output.Printed.{all_events};

use crate::json_lines::JsonLines;
use ira_audit::Answer;
use ira_event::{MemorySink, Sink, write_bytes};
use ira_view::{ShownRing, write_view};
use ira_view_page::{PageText, ShowFault};
use std::alloc::Allocator;

/// What a command prints on standard output.
#[derive(Drop)]
pub enum Output<A: Allocator> {
    /// This text.
    Text(MemorySink<A>),
    /// An order of all events, after the line of a yes and these lines on who leads, made as it is written.
    Events {
        alloc: A,
        ring: ShownRing<A>,
        differences: PageText<A>,
    },
    Json(JsonLines<A>),
}

/// Writes an order of all events, after the line of a yes and these lines.
fn write_events<A: Allocator + Clone, W: Sink>(
    alloc: A,
    ring: &ShownRing<A>,
    differences: &PageText<A>,
    sink: &mut W,
) -> Result<(), ShowFault>
    ensures { WroteOutput (all_events ring.now differences.now) result (W.state sink.old) (W.state sink.new) }
{
    write_view(&Answer::Yes, differences.bytes(), sink)?;
    ring.write_events(alloc, sink)
}

impl<A: Allocator + Clone> Output<A> {
    /// Writes it: a text at once, all else block by block.
    pub fn write<W: Sink>(&self, sink: &mut W) -> Result<(), ShowFault>
        ensures { WroteOutput (printed_by self.now) result (W.state sink.old) (W.state sink.new) }
    {
        match self {
            Output::Text(text) => Ok(write_bytes(text.bytes(), sink)?),
            Output::Events {
                alloc,
                ring,
                differences,
            } => write_events(alloc.clone()?, ring, differences, sink),
            Output::Json(lines) => lines.write(sink),
        }
    }
}
