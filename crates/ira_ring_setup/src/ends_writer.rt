ghost use Rattle.std.specs.Prelude.{◌≡◌, ◌≤◌, length};
ghost use Rattle.ira_event.specs.Sink.{Wrote};
ghost use Rattle.ira_ring_setup.specs.EndsWriter.{end_words, end_text, ends_text};

use crate::node_end::NodeEnd;
use crate::run::Run;
use ira_event::{Line, NodeLog, Sink, WriteFault};
use std::alloc::Allocator;

fn words(end: NodeEnd) -> &'static [u8]
    ensures words { result.now ≡ end_words end }
    ensures short { length result.now ≤ 11 }
{
    match end {
        NodeEnd::Leader => b"leader",
        NodeEnd::Stopped => b"stopped",
        NodeEnd::DrawsSpent => b"draws spent",
        NodeEnd::LogFull => b"log full",
        NodeEnd::NoStep(_) => b"no step",
        NodeEnd::Quiet => b"quiet",
    }
}

fn end_line<A: Allocator>(log: &NodeLog<A>, end: NodeEnd) -> Line
    ensures { result ≡ end_text (log.now, end) }
{
    let mut line = Line::new();
    line.add(b"node ");
    line.add_number(u32::from(log.place()));
    line.add(b": ");
    line.add(words(end));
    line.add(b", ");
    line.add_number(log.len() as u32);
    line.add(b" events\n");
    line
}

/// Writes a line for each node, in the order of the places: its end, and how many events its log has.
pub fn write_ends<A: Allocator, W: Sink>(run: &Run<A>, sink: &mut W) -> Result<(), WriteFault>
    ensures { Wrote result (ends_text run.now) (W.state sink.old) (W.state sink.new) }
{
    for i in 0..run.logs().size().get() {
        end_line(run.logs().log(i), run.ends()[usize::from(i)]).write(sink)?;
    }
    Ok(())
}
