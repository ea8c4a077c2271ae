ghost use Rattle.std.specs.Prelude.{◌≡◌, ◌≤◌, ◌++◌, [], length};
ghost use Rattle.std.specs.List.{flat_map};
ghost use Rattle.ira_event.specs.Log.{Log};
ghost use Rattle.ira_event.specs.LogText.{bit_word, start_word, message_text, load_text, record_text, head_text, end_text, head_of, log_text};
ghost use Rattle.ira_event.specs.Sink.{Wrote};

use crate::event::Event;
use crate::line::Line;
use crate::load::Load;
use crate::log_head::LogHead;
use crate::msg::Msg;
use crate::node_log::NodeLog;
use crate::sink::Sink;
use crate::write::WriteFault;
use std::alloc::Allocator;

fn add_message(line: &mut Line, m: &Msg)
    requires { length line.old ≤ 5 }
    ensures text { line.new ≡ line.old ++ message_text m.now }
    ensures short { length line.new ≤ 50 }
{
    line.add_number(m.round);
    line.add(b" ");
    line.add_number(m.id);
    line.add(b" ");
    line.add_number(m.hop);
    line.add(b" ");
    line.add(if m.dirty { b"dirty" } else { b"clean" });
}

fn add_load(line: &mut Line, load: &Load)
    requires { length line.old ≤ 5 }
    ensures text { line.new ≡ line.old ++ load_text load.now }
    ensures short { length line.new ≤ 50 }
{
    match load {
        Load::Msg(message) => add_message(line, message),
        Load::Reset(hop) => {
            line.add(b"reset ");
            line.add_number(*hop);
        }
    }
}

fn add_record(line: &mut Line, event: &Event)
    requires { line.old ≡ [] }
    ensures { line.new ≡ record_text event.now }
{
    match event {
        Event::Draw(id) => {
            line.add(b"draw ");
            line.add_number(*id);
        }
        Event::Sent(load) => {
            line.add(b"send ");
            add_load(line, load);
        }
        Event::Got(load) => {
            line.add(b"recv ");
            add_load(line, load);
        }
        Event::Yield => line.add(b"yield"),
    }
    line.add(b"\n");
}

fn head(head: LogHead) -> Line
    ensures { result ≡ head_text head }
{
    let mut line = Line::new();
    line.add(b"irlog ");
    line.add_number(u32::from(head.version));
    line.add(b"\nnodes ");
    line.add_number(u32::from(head.nodes.get()));
    line.add(b"\nplace ");
    line.add_number(u32::from(head.place));
    line.add(b"\nstart ");
    line.add(if head.initiator {
        b"initiator"
    } else {
        b"passive"
    });
    line.add(b"\n");
    line
}

fn add_end(line: &mut Line, count: u32)
    requires { line.old ≡ [] }
    ensures { line.new ≡ end_text count }
{
    line.add(b"end ");
    line.add_number(count);
    line.add(b"\n");
}

fn write_records_and_end<A: Allocator, W: Sink>(
    log: &NodeLog<A>,
    sink: &mut W,
) -> Result<(), WriteFault>
    ensures { Wrote result (flat_map record_text log.now.events ++ end_text (length log.now.events))
        (W.state sink.old) (W.state sink.new) }
{
    let mut line = Line::new();
    for event in log.events() {
        line.clear();
        add_record(&mut line, &event);
        line.write(sink)?;
    }
    line.clear();
    add_end(&mut line, log.len() as u32);
    line.write(sink)
}

/// Writes the text of the log.
pub fn write_log<A: Allocator, W: Sink>(log: &NodeLog<A>, sink: &mut W) -> Result<(), WriteFault>
    ensures { Wrote result (log_text log.now) (W.state sink.old) (W.state sink.new) }
{
    head(log.head()).write(sink)?;
    write_records_and_end(log, sink)
}
