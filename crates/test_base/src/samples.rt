//! States and logs that the tests share.

use ira_event::{Event, Load, NodeLog, RingSize};
use ira_node::{NodeState, Phase};
use std::alloc::Global;
use std::fmt::Display;
use std::process::Abort;

/// In this phase of the first term, where nothing is owed.
pub(crate) fn free(phase: Phase) -> NodeState {
    NodeState {
        phase,
        owed: None,
        term: 1,
    }
}

/// The same where this is owed.
pub(crate) fn owing(phase: Phase, load: Load) -> NodeState {
    NodeState {
        owed: Some(load),
        ..free(phase)
    }
}

/// The same state in this term.
pub(crate) fn in_term(term: u32, state: NodeState) -> NodeState {
    NodeState { term, ..state }
}

/// The log of these parts.
pub(crate) fn log_in(
    rt: &(impl Abort + AllocGlobal),
    version: u8,
    nodes: u8,
    place: u8,
    initiator: bool,
    events: &[Event],
) -> NodeLog<Global> {
    let nodes = RingSize::new(nodes).expect(rt, "a ring of that size");
    let events = events.to_vec(rt.alloc()).expect(rt, "memory");
    NodeLog::new(version, nodes, place, initiator, events).expect(rt, "a log")
}

/// The log of version 1 of these parts.
pub(crate) fn log_of(
    rt: &(impl Abort + AllocGlobal),
    nodes: u8,
    place: u8,
    initiator: bool,
    events: &[Event],
) -> NodeLog<Global> {
    log_in(rt, 1, nodes, place, initiator, events)
}

/// The text of these parts, of which the second stands there so many times.
pub(crate) fn text_of(
    rt: &(impl Abort + AllocGlobal),
    first: &[u8],
    line: &[u8],
    lines: usize,
    last: &[u8],
) -> Vec<u8> {
    let mut text = Vec::from_slice(rt.alloc(), first).expect(rt, "memory");
    for _ in 0..lines {
        text.extend_from_slice(line).expect(rt, "memory");
    }
    text.extend_from_slice(last).expect(rt, "memory");
    text
}

/// Compares how a value is shown.
pub(crate) fn assert_shown(rt: &(impl Abort + AllocGlobal), value: &impl Display, words: &str) {
    let shown = format!(in rt.alloc(); "{value}").expect(rt, "memory");
    assert_eq!(rt; shown.as_str(), words);
}
