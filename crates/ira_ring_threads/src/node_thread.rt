// What the thread of one node does.
ghost use Rattle.std.specs.Prelude.{◌≡◌, ◌≤◌, ◌++◌, [], IfOk, OnOk};
ghost use Rattle.std.specs.List.{All};
ghost use Rattle.ira_event.specs.Limits.{MAX_NUMBER};
ghost use Rattle.ira_node.specs.NodeState.{first_state};
ghost use Rattle.ira_ring_setup.specs.Terms.{version_of, YieldsBelow};
ghost use Rattle.ira_event.specs.Messages.{drawn};
ghost use Rattle.ira_ring_setup.specs.FullRun.{BeginsWith};
ghost use Rattle.ira_ring_threads.specs.NodeFrames.{frames, frames_put, frames_taken};
ghost use Rattle.ira_ring_threads.specs.Recorder.{AreOfOneNode};
ghost use Rattle.ira_ring_setup.specs.Recording.{EndsAs, IsRecorded};
ghost use Rattle.ira_order.specs.Matching.{sent};

use crate::node_work::NodeWork;
use crate::record_fault::RecordFault;
use crate::recorder::Recorder;
use ira_event::Event;
use ira_links::{Closed, Frame, Gate, LinkIn, LinkOut};
use ira_node::Wanted;
use ira_ring_setup::{NodeEnd, NodePart, log_version};
use std::alloc::Allocator;
use std::sync::Wait;
use std::time::Clock;

/// The turns of a node in a run of so many terms, up to its end.
fn turns<R: Wait + Clock, G: Gate, A: Allocator>(
    rt: &R,
    gate: &G,
    node: &mut Recorder<A>,
    terms: u32,
    draws: &[u32],
    input: &mut LinkIn<A>,
    output: &mut LinkOut<A>,
) -> Result<NodeEnd, Closed>
    requires empty { node.old.log.events ≡ [] }
    requires version { node.old.log.version ≡ version_of node.old.log.nodes terms }
    requires terms { (1 ≤ terms) × (terms ≤ MAX_NUMBER) }
    requires ids { All (λ d. (1 ≤ d) × (d ≤ node.old.log.nodes)) draws.now }
    ensures node { AreOfOneNode node.new.log node.old.log × (node.new.cap ≡ node.old.cap) }
    ensures links { (input.new.link ≡ input.old.link) × (output.new.link ≡ output.old.link) }
    ensures put { OnOk result (output.new.frames ≡ output.old.frames ++ frames (sent node.new.log.events)) }
    ensures taken { IfOk result
        (λ end. input.new.frames ≡ input.old.frames ++ frames_taken node.new.log.events end) }
    ensures draws { OnOk result (BeginsWith draws.now (drawn node.new.log.events)) }
    ensures yields { OnOk result
        (YieldsBelow terms node.new.log.nodes (first_state node.new.log.initiator) node.new.log.events) }
    ensures end { IfOk result
        (λ end. EndsAs node.old.log.nodes node.old.cap terms draws.now node.new.state node.new.log.events end) }
{
    let who = u32::from(node.place());
    let mut left = draws;
    for _ in rt.forever() {
        let state = node.state();
        match state.wanted() {
            Wanted::Nothing => return Ok(NodeEnd::Leader),
            Wanted::Yield if state.term >= terms => return Ok(NodeEnd::Leader),
            _ if node.is_full() => return Ok(NodeEnd::LogFull),
            Wanted::Yield => {
                let Ok(()) = node.record(Event::Yield) else {
                    unreachable!()
                };
            }
            Wanted::Draw => {
                let Some((id, others)) = left.split_first() else {
                    return Ok(NodeEnd::DrawsSpent);
                };
                gate.pass(rt, who);
                left = others;
                let Ok(()) = node.record(Event::Draw(*id)) else {
                    unreachable!()
                };
            }
            Wanted::Send(load) => {
                gate.pass(rt, who);
                let Ok(()) = output.put(rt, Frame::Load(load)) else {
                    return Err(Closed);
                };
                let Ok(()) = node.record(Event::Sent(load)) else {
                    unreachable!()
                };
            }
            Wanted::Receipt => {
                gate.pass(rt, who);
                match input.take(rt)? {
                    Frame::Stop => return Ok(NodeEnd::Stopped),
                    Frame::Load(load) => match node.record(Event::Got(load)) {
                        Ok(()) => {}
                        Err(RecordFault::NoStep) => return Ok(NodeEnd::NoStep(load)),
                        Err(RecordFault::OtherVersion) => return Err(Closed),
                    },
                }
            }
        }
    }
    unreachable!()
}

/// Runs one node: it follows its automaton, writes each event down, yields where it leads in a term before
/// the last, and ends as a leader of the last term, where its log is full, where it has to draw and its draws
/// are spent, where a load has no step, or where `Stop` comes. In the end it puts one `Stop` on its link. Before
/// each draw, each sending and each take it passes the gate under its place; a yield touches nothing that nodes
/// share, and passes none. `Closed` where a link is, or where a reset comes that has a step and its log is of
/// version 1, which can't hold it; then the work is dropped.
pub fn node_body<R: Wait + Clock, G: Gate, A: Allocator>(
    rt: &R,
    work: NodeWork<A>,
    gate: &G,
) -> Result<(NodePart<A>, LinkIn<A>, LinkOut<A>), Closed>
    ensures place { IfOk result (λ r. r.0.place ≡ work.entry.place) }
    ensures recorded { IfOk result
        (λ r. IsRecorded work.entry.nodes work.entry.place work.entry.initiator work.entry.draws.now
        work.entry.cap work.entry.terms r.0.log r.0.end) }
    ensures links { IfOk result
        (λ r. (r.1.link ≡ work.entry.input.link) × (r.2.link ≡ work.entry.output.link)) }
    ensures put { IfOk result (λ r. r.2.frames ≡ work.entry.output.frames ++ frames_put r.0.log.events) }
    ensures taken { IfOk result
        (λ r. r.1.frames ≡ work.entry.input.frames ++ frames_taken r.0.log.events r.0.end) }
{
    let NodeWork {
        nodes,
        place,
        initiator,
        draws,
        room,
        cap,
        terms,
        mut input,
        mut output,
    } = work;
    let mut node = Recorder::new(
        log_version(nodes, terms),
        nodes,
        place,
        initiator,
        cap,
        room,
    );
    let end = turns(rt, gate, &mut node, terms, draws, &mut input, &mut output)?;
    let Ok(()) = output.put(rt, Frame::Stop) else {
        return Err(Closed);
    };
    let part = NodePart {
        place,
        log: node.into_log(),
        end,
    };
    Ok((part, input, output))
}
