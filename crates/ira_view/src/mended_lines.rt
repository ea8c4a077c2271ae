ghost use Rattle.std.specs.Prelude.{◌≡◌, ◌≤◌, length};
ghost use Rattle.ira_event.specs.Sink.{Wrote};
ghost use Rattle.ira_view.specs.MendedLines.{counts_text, mended_line, mended_lines};

use ira_event::{Line, Logs, NodeLog, Sink, WriteFault};
use std::alloc::Allocator;

/// How many of a node's events are kept, of how many where not all are.
#[tactic(auto, unfolding(crate::specs::MendedLines::counts_text))]
fn counts_line<A: Allocator>(log: &NodeLog<A>, mended: &NodeLog<A>) -> Line
    ensures text { result ≡ counts_text log.now mended.now }
    ensures room { length result ≤ 64 }
{
    let (all, kept) = (log.len(), mended.len());
    let mut line = Line::new();
    line.add(b"node ");
    line.add_number(u32::from(log.place()));
    line.add(b": ");
    if kept < all {
        line.add_number(kept as u32);
        line.add(b" of ");
    }
    line.add_number(all as u32);
    line.add(b" events");
    line
}

/// The line of a node: how many of its events are kept, and where nothing was left of its log, that.
fn mended_line<A: Allocator>(log: &NodeLog<A>, mended: &NodeLog<A>, is_lost: bool) -> Line
    ensures { result ≡ mended_line ((log.now, mended.now), is_lost) }
{
    let mut line = counts_line(log, mended);
    if is_lost {
        line.add(b", no log was left");
    }
    line.add(b"\n");
    line
}

/// Writes a line for each node, in the order of the places. Of which nothing was left is said by `lost`.
pub fn write_mended<A: Allocator, W: Sink>(
    logs: &Logs<A>,
    mended: &Logs<A>,
    lost: &[bool],
    sink: &mut W,
) -> Result<(), WriteFault>
    requires mended { length mended.now ≡ length logs.now }
    requires lost { length lost.now ≡ length logs.now }
    ensures { Wrote result (mended_lines logs.now mended.now lost.now) (W.state sink.old) (W.state sink.new) }
{
    for place in 0..logs.size().get() {
        let is_lost = lost[usize::from(place)];
        mended_line(logs.log(place), mended.log(place), is_lost).write(sink)?;
    }
    Ok(())
}
