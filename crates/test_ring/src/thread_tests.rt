ghost use Rattle.std.specs.Prelude.{◌≡◌, ◌≤◌, []};

use crate::samples::{clean, has_events};
use ira_event::{Event, Load, RingSize};
use ira_links::{Closed, Frame, LinkIn, LinkOut, OpenGate, link};
use ira_ring::{NodeEnd, NodePart, NodeWork, node_body};
use std::alloc::Global;
use std::process::Abort;
use std::sync::Wait;
use std::test::*;
use std::time::Clock;

/// The work of node 0 of a ring of two, which is to draw 1 where it draws.
fn work_of(
    rt: &(impl Abort + AllocGlobal),
    initiator: bool,
    input: LinkIn<Global>,
    output: LinkOut<Global>,
) -> NodeWork<'static, Global>
    requires { (input.frames ≡ []) × (output.frames ≡ []) }
{
    NodeWork {
        nodes: RingSize::new(2).expect(rt, "a ring of two"),
        place: 0,
        initiator,
        draws: &[1],
        room: Vec::with_capacity(rt.alloc(), 100).expect(rt, "memory"),
        cap: 100,
        terms: 1,
        input,
        output,
    }
}

/// Whether node 0 handed in these events and this end.
fn is_part(part: &NodePart<Global>, events: &[Event], end: NodeEnd) -> bool {
    part.place == 0 && part.end == end && part.log.place() == 0 && has_events(&part.log, events)
}

/// A message that no message of this ring can be has no step, and the node puts `Stop` after its own.
fn assert_no_step<R: Abort + AllocGlobal + Wait + Clock>(rt: &R) {
    let (mut before, input) = link(rt.alloc(), 6).expect(rt, "memory");
    let (output, mut after) = link(rt.alloc(), 6).expect(rt, "memory");
    let far = clean(1, 1, 3);
    let put = before.put(rt, Frame::Load(far));
    let Ok((part, _, _)) = node_body(rt, work_of(rt, true, input, output), &OpenGate) else {
        panic!(rt; "the node was closed")
    };
    let first = clean(1, 1, 1);
    let events = [Event::Draw(1), Event::Sent(first)];
    let is_part = is_part(&part, &events, NodeEnd::NoStep(far));
    let taken = [after.take(rt), after.take(rt), after.take(rt)];
    let frames = [Ok(Frame::Load(first)), Ok(Frame::Stop), Err(Closed)];
    assert!(rt; put == Ok(()) && is_part && taken == frames);
}

/// A node whose input is dropped is closed.
fn assert_closed<R: Abort + AllocGlobal + Wait + Clock>(rt: &R) {
    let (before, input) = link(rt.alloc(), 6).expect(rt, "memory");
    let (output, _after) = link(rt.alloc(), 6).expect(rt, "memory");
    drop(before);
    let is_closed = node_body(rt, work_of(rt, true, input, output), &OpenGate).is_err();
    assert!(rt; is_closed);
}

/// How a node of a ring of two ends that is passive at first, where it isn't closed.
fn end_of_passive<R: Abort + AllocGlobal + Wait + Clock>(
    rt: &R,
    input: LinkIn<Global>,
    output: LinkOut<Global>,
) -> Option<NodeEnd>
    requires { (input.frames ≡ []) × (output.frames ≡ []) }
{
    let Ok((part, _, _)) = node_body(rt, work_of(rt, false, input, output), &OpenGate) else {
        return None;
    };
    Some(part.end)
}

/// A passive node of a ring of two, whose log is of version 1, takes this reset: how it ends, if it isn't closed, and what
/// it puts first.
fn assert_reset<R: Abort + AllocGlobal + Wait + Clock>(
    rt: &R,
    hop: u32,
    expected: Option<NodeEnd>,
    first: Result<Frame, Closed>,
)
    requires { (1 ≤ hop) × (hop ≤ 1000000) }
{
    let (mut before, input) = link(rt.alloc(), 6).expect(rt, "memory");
    let (output, mut after) = link(rt.alloc(), 6).expect(rt, "memory");
    let put = [
        before.put(rt, Frame::Load(Load::Reset(hop))),
        before.put(rt, Frame::Stop),
    ];
    let end = end_of_passive(rt, input, output);
    let taken = after.take(rt);
    assert!(rt; put == [Ok(()), Ok(())] && end == expected && taken == first);
}

#[test]
fn node_body_alone(rt: HostRuntime) {
    assert_no_step(&rt);
    assert_closed(&rt);
}

// A reset on its way has a step, which a log of version 1 can't hold; one that went the whole way round has none here.
#[test]
fn reset_at_a_log_of_version_1(rt: HostRuntime) {
    assert_reset(&rt, 1, None, Err(Closed));
    let no_step = NodeEnd::NoStep(Load::Reset(2));
    assert_reset(&rt, 2, Some(no_step), Ok(Frame::Stop));
}
