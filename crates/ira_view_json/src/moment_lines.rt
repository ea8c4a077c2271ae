ghost use Rattle.std.specs.Prelude.{◌≡◌, ◌<◌, length};
ghost use Rattle.ira_order.specs.Cut.{IsCut};
ghost use Rattle.ira_order.specs.Run.{AreLocalRuns};
ghost use Rattle.ira_view_json.specs.Line.{WroteLines};
ghost use Rattle.ira_view_moment.specs.Moment.{IsMoment};

use crate::line_block::LineBlock;
use crate::log_lines::start_of;
use crate::object::Object;
use crate::to_value::list_value;
use crate::value::Value;
use ira_event::{Event, Logs, NodeLog, OutOfMemory, Sink};
use ira_view_election::{Election, NodeDue, election_at};
use ira_view_moment::{Moment, NodeProgress, Round, Rounds};
use ira_view_page::ShowFault;
use std::alloc::Allocator;

/// What was drawn in a round.
fn round_value<A: Allocator + Clone>(alloc: &A, round: &Round<A>) -> Result<Value<A>, OutOfMemory> {
    let mut object = Object::of(alloc.clone()?, "round");
    object.number("round", round.number as u64);
    if round.term != 1 {
        object.number("term", round.term as u64);
    }
    object.number("drew", round.draws.len() as u64);
    object.number("greatest", round.greatest as u64);
    object.value("drawn_by", list_value(alloc, &round.greatest_of));
    object.finish()
}

/// How far a node has come, whose log stands in this file.
fn node_value<A: Allocator + Clone>(
    alloc: &A,
    log: &NodeLog<A>,
    file: &str,
    node: NodeProgress,
) -> Result<Value<A>, OutOfMemory> {
    let mut object = Object::of(alloc.clone()?, "node");
    object.number("node", log.place() as u64);
    object.text("file", file);
    object.words("start", start_of(log));
    object.number("events", node.events as u64);
    object.number("of", log.len() as u64);
    object.number("draws", node.draws as u64);
    object.number("sent", node.sent as u64);
    object.number("received", node.received as u64);
    object.number("dropped", node.dropped as u64);
    object.state(node.state);
    object.finish()
}

/// The last sendings of a node, so many, each with its event.
fn last_sendings<A: Allocator + Clone>(
    alloc: &A,
    log: &NodeLog<A>,
    node: NodeProgress,
    number: usize,
) -> Result<Value<A>, OutOfMemory> {
    let before = (node.sent as usize).saturating_sub(number);
    let mut sendings = 0usize;
    let mut list = Vec::with_capacity(alloc.clone()?, number)?;
    for (i, event) in log.events().take(node.events as usize).enumerate() {
        if let Event::Sent(load) = event {
            if sendings >= before {
                let mut sending = Object::new(alloc.clone()?);
                sending.load(load);
                sending.number("event", (i as u64).saturating_add(1));
                list.push(sending.finish()?)?;
            }
            sendings = sendings.saturating_add(1);
        }
    }
    Ok(Value::Array(list))
}

/// What is on its way on a link: the last sendings of its writer.
fn link_value<A: Allocator + Clone>(
    alloc: &A,
    link: u8,
    way: Result<Value<A>, OutOfMemory>,
) -> Result<Value<A>, OutOfMemory> {
    let mut object = Object::of(alloc.clone()?, "link");
    object.number("link", link as u64);
    object.value("on_the_way", way);
    object.finish()
}

/// Writes a line for each round.
fn write_rounds<A: Allocator + Clone, W: Sink>(
    alloc: &A,
    rounds: &[Round<A>],
    lines: &mut LineBlock<A>,
    sink: &mut W,
) -> Result<(), ShowFault>
    ensures { WroteLines result (W.state sink.old) (W.state sink.new) }
{
    for round in rounds {
        lines.add(&round_value(alloc, round)?, sink)?;
    }
    Ok(())
}

/// Writes a line for each node, whose log stands in the file of this name at its place.
fn write_nodes<A: Allocator + Clone, W: Sink>(
    alloc: &A,
    logs: &Logs<A>,
    files: &[String<A>],
    moment: &Moment<A>,
    lines: &mut LineBlock<A>,
    sink: &mut W,
) -> Result<(), ShowFault>
    requires nodes { length moment.now.nodes ≡ length logs.now }
    requires files { length files.now ≡ length logs.now }
    ensures { WroteLines result (W.state sink.old) (W.state sink.new) }
{
    for place in 0..moment.size() {
        let file = files[usize::from(place)].as_str();
        let node = node_value(alloc, logs.log(place), file, moment.node(place))?;
        lines.add(&node, sink)?;
    }
    Ok(())
}

/// Writes a line for a link, where it holds something.
fn write_link<A: Allocator + Clone, W: Sink>(
    alloc: &A,
    log: &NodeLog<A>,
    moment: &Moment<A>,
    link: u8,
    lines: &mut LineBlock<A>,
    sink: &mut W,
) -> Result<(), ShowFault>
    requires nodes { link < length moment.now.nodes }
    requires links { link < length moment.now.links }
    ensures { WroteLines result (W.state sink.old) (W.state sink.new) }
{
    let number = moment.on_link(link).len();
    if number == 0 {
        return Ok(());
    }
    let way = last_sendings(alloc, log, moment.node(link), number);
    lines.add(&link_value(alloc, link, way)?, sink)
}

/// Writes a line for each link that holds something.
fn write_links<A: Allocator + Clone, W: Sink>(
    alloc: &A,
    logs: &Logs<A>,
    moment: &Moment<A>,
    lines: &mut LineBlock<A>,
    sink: &mut W,
) -> Result<(), ShowFault>
    requires { length moment.now.nodes ≡ length logs.now }
    ensures { WroteLines result (W.state sink.old) (W.state sink.new) }
{
    for link in 0..moment.size() {
        write_link(alloc, logs.log(link), moment, link, lines, sink)?;
    }
    Ok(())
}

/// A node and what comes next there.
fn next_value<A: Allocator + Clone>(alloc: &A, next: NodeDue) -> Result<Value<A>, OutOfMemory> {
    let mut object = Object::of(alloc.clone()?, "next");
    object.node_due(next);
    object.finish()
}

/// Writes a line for each node at which something comes next.
fn write_next<A: Allocator + Clone, W: Sink>(
    alloc: &A,
    election: &Election<A>,
    lines: &mut LineBlock<A>,
    sink: &mut W,
) -> Result<(), ShowFault>
    ensures { WroteLines result (W.state sink.old) (W.state sink.new) }
{
    let Election::GoesOn { next, .. } = election else {
        return Ok(());
    };
    for one in next {
        lines.add(&next_value(alloc, *one)?, sink)?;
    }
    Ok(())
}

/// Writes a line for each link that holds something, and for each node at which something comes next.
fn write_way<A: Allocator + Clone, W: Sink>(
    alloc: &A,
    logs: &Logs<A>,
    moment: &Moment<A>,
    rounds: &Rounds<A>,
    lines: &mut LineBlock<A>,
    sink: &mut W,
) -> Result<(), ShowFault>
    requires { length moment.now.nodes ≡ length logs.now }
    ensures { WroteLines result (W.state sink.old) (W.state sink.new) }
{
    let election = election_at(alloc.clone()?, logs, moment, rounds)?;
    write_links(alloc, logs, moment, lines, sink)?;
    write_next(alloc, &election, lines, sink)
}

/// Writes, of the moment of a cut, a line for each round, each node, each link that holds something, and each node at which
/// something comes next. These are the names of the files of the logs, in their order.
pub(crate) fn write_moment<A: Allocator + Clone, W: Sink>(
    alloc: A,
    logs: &Logs<A>,
    files: &[String<A>],
    cut: &[u32],
    moment: &Moment<A>,
    sink: &mut W,
) -> Result<(), ShowFault>
    requires local { AreLocalRuns logs.now }
    requires cut { IsCut logs.now cut.now }
    requires moment { IsMoment logs.now cut.now moment.now }
    requires files { length files.now ≡ length logs.now }
    ensures { WroteLines result (W.state sink.old) (W.state sink.new) }
{
    let rounds = Rounds::of(alloc.clone()?, logs, cut)?;
    let mut lines = LineBlock::new(alloc.clone()?);
    write_rounds(&alloc, rounds.as_slice(), &mut lines, sink)?;
    write_nodes(&alloc, logs, files, moment, &mut lines, sink)?;
    write_way(&alloc, logs, moment, &rounds, &mut lines, sink)?;
    lines.flush(sink)
}
