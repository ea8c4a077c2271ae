//! Texts of logs written to sinks, and logs gathered.

use crate::samples::{log_in, log_of};
use ira_event::{
    Event, HeadFault, Logs, MemorySink, NodeLog, ToWriter, WriteFault, read_log, upgrade, write_log,
};
use ira_pred::{Question, read_question, write_question};
use std::alloc::Global;
use std::io::BufWriter;
use std::process::Abort;
use test_fixtures::{
    ELECTION_0, ELECTION_1, SECOND_TERM, dirty, lone_initiator_logs, lone_initiator_texts, loser,
    next_leader, winner, yielder,
};
use test_refusing::{FailingSink, Writer, each_byte_refused};

/// Whether the log is written to empty memory as this text.
fn is_written_as(alloc: Global, log: &NodeLog<Global>, text: &[u8]) -> bool {
    let mut sink = MemorySink::new(alloc);
    let is_empty = sink.bytes().is_empty();
    is_empty && write_log(log, &mut sink) == Ok(()) && sink.bytes() == text
}

/// Writes the log of these events to memory, and compares the text.
fn assert_written(
    rt: &(impl Abort + AllocGlobal),
    version: u8,
    nodes: u8,
    place: u8,
    initiator: bool,
    events: &[Event],
    text: &[u8],
) {
    let log = log_in(rt, version, nodes, place, initiator, events);
    let is_written = is_written_as(rt.alloc(), &log, text);
    assert!(rt; is_written);
}

#[test]
fn two_node_election(rt: HostRuntime) {
    assert_eq!(rt; ELECTION_0.len(), 104);
    assert_written(&rt, 1, 2, 0, true, &winner(), ELECTION_0);
    assert_written(&rt, 1, 2, 1, true, &loser(), ELECTION_1);
}

#[test]
fn second_term(rt: HostRuntime) {
    assert_written(&rt, 2, 2, 0, true, &yielder(), SECOND_TERM[0]);
    assert_written(&rt, 2, 2, 1, true, &next_leader(), SECOND_TERM[1]);
}

/// Whether the log is upgraded to that of this text.
fn is_upgraded(alloc: Global, log: &NodeLog<Global>, text: &[u8]) -> bool {
    match upgrade(alloc, log) {
        Ok(upgraded) => is_written_as(alloc, &upgraded, text),
        Err(_) => false,
    }
}

#[test]
fn upgrade_of_logs(rt: HostRuntime) {
    let election =
        b"irlog 2\nnodes 2\nplace 0\nstart initiator\ndraw 2\nsend 1 2 1 clean\nrecv 1 1 1 clean\nrecv 1 2 2 clean\nend 4\n";
    assert_eq!(rt; election.len(), 104);
    let log = log_of(&rt, 2, 0, true, &winner());
    let terms = log_in(&rt, 2, 2, 0, true, &yielder());
    let are_upgraded = (
        is_upgraded(rt.alloc(), &log, election),
        is_upgraded(rt.alloc(), &terms, SECOND_TERM[0]),
    );
    assert!(rt; are_upgraded == (true, true));
}

/// Whether the logs are written as these texts.
fn are_written_as(alloc: Global, logs: &Logs<Global>, texts: &[String]) -> bool {
    for place in 0..logs.size().get() {
        let Some(text) = texts.get(usize::from(place)) else {
            return false;
        };
        if !is_written_as(alloc, logs.log(place), text.as_bytes()) {
            return false;
        }
    }
    texts.len() == usize::from(logs.size().get())
}

/// Whether the logs of the lone initiator's election in a ring of so many nodes, in this version, are upgraded to those
/// in version 2.
fn is_ring_upgraded(alloc: Global, version: u8, nodes: u8) -> Option<bool> {
    let upgraded = lone_initiator_logs(alloc, version, nodes)?.upgrade().ok()?;
    let texts = lone_initiator_texts(alloc, nodes).ok()?;
    Some(are_written_as(alloc, &upgraded, &texts))
}

#[test]
fn upgrade_of_rings(rt: HostRuntime) {
    let are_upgraded = [
        is_ring_upgraded(rt.alloc(), 1, 3),
        is_ring_upgraded(rt.alloc(), 1, 5),
        is_ring_upgraded(rt.alloc(), 1, 64),
        is_ring_upgraded(rt.alloc(), 2, 65),
    ];
    assert!(rt;
        are_upgraded == [Some(true), Some(true), Some(true), Some(true)],
        "{are_upgraded:?}"
    );
}

#[test]
fn largest_numbers_and_dirty(rt: HostRuntime) {
    let message = dirty(1_000_000, 999_999, 10);
    let events = [
        Event::Got(message),
        Event::Draw(1_000_000),
        Event::Sent(message),
    ];
    let text =
        b"irlog 1\nnodes 64\nplace 63\nstart passive\nrecv 1000000 999999 10 dirty\ndraw 1000000\nsend 1000000 999999 10 dirty\nend 3\n";
    assert_written(&rt, 1, 64, 63, false, &events, text);
    let text =
        b"irlog 2\nnodes 255\nplace 254\nstart passive\nrecv 1000000 999999 10 dirty\ndraw 1000000\nsend 1000000 999999 10 dirty\nend 3\n";
    assert_written(&rt, 2, 255, 254, false, &events, text);
}

/// The log's text.
#[derive(Drop)]
struct LogText<'a>(&'a NodeLog<Global>);

impl Writer for LogText<'_> {
    fn is_refused(&self, sink: &mut FailingSink) -> bool {
        write_log(self.0, sink) == Err(WriteFault)
    }
}

/// Writes the log of this text to a sink that fails after each byte in turn.
fn is_each_byte_refused(alloc: Global, text: &[u8]) -> Option<bool> {
    let log = read_log(alloc, text).ok()?;
    Some(each_byte_refused(alloc, &LogText(&log), text) == Ok(()))
}

#[test]
fn sink_fails_after_each_byte(rt: HostRuntime) {
    let are_refused = [
        is_each_byte_refused(rt.alloc(), ELECTION_0),
        is_each_byte_refused(rt.alloc(), SECOND_TERM[0]),
    ];
    assert!(rt; are_refused == [Some(true), Some(true)], "{are_refused:?}");
}

/// The question's text.
#[derive(Drop)]
struct QuestionText<'a>(&'a Question<Global>);

impl Writer for QuestionText<'_> {
    fn is_refused(&self, sink: &mut FailingSink) -> bool {
        write_question(self.0, sink) == Err(WriteFault)
    }
}

/// Writes the question of this text to a sink that fails after each byte in turn.
fn is_question_refused(alloc: Global, text: &[u8]) -> Option<bool> {
    let question = read_question(alloc, text).ok()?;
    Some(each_byte_refused(alloc, &QuestionText(&question), text) == Ok(()))
}

#[test]
fn sink_of_a_question_fails_after_each_byte(rt: HostRuntime) {
    let text = b"irask 1\nnodes 2\ncase\n0: leader\n1: (leader or (not active))\nend\n";
    assert!(rt; is_question_refused(rt.alloc(), text) == Some(true));
}

#[test]
fn to_a_writer(rt: HostRuntime) {
    let log = log_of(&rt, 2, 1, true, &loser());
    let mut bytes = Vec::new(rt.alloc());
    let mut sink = ToWriter::new(&mut bytes);
    let written = (write_log(&log, &mut sink), sink.flush());
    assert!(rt; written == (Ok(()), Ok(())) && bytes.as_slice() == ELECTION_1);
}

#[test]
fn sink_fails_after_ten_bytes(rt: HostRuntime) {
    let log = log_of(&rt, 2, 0, true, &winner());
    let mut room = [0; 10];
    let written = write_log(&log, &mut ToWriter::new(room.as_mut_slice()));
    assert!(rt; (written, room) == (Err(WriteFault), *b"irlog 1\nno"));
}

/// What writing to the buffer of a writer with room for ten bytes answers, and then flushing it.
fn write_after_a_buffer(
    alloc: Global,
    log: &NodeLog<Global>,
) -> Option<(Result<(), WriteFault>, Result<(), WriteFault>)> {
    let mut room = [0; 10];
    let buffer = BufWriter::new(alloc, room.as_mut_slice()).ok()?;
    let mut sink = ToWriter::new(buffer);
    Some((write_log(log, &mut sink), sink.flush()))
}

#[test]
fn full_writer_after_a_buffer(rt: HostRuntime) {
    let log = log_of(&rt, 2, 0, true, &winner());
    let written = write_after_a_buffer(rt.alloc(), &log);
    assert!(rt;
        written == Some((Ok(()), Err(WriteFault))),
        "all fits in the buffer"
    );
}

/// Whether each log stands at its place.
fn are_in_place(logs: &Logs<Global>) -> bool {
    for place in 0..logs.size().get() {
        if logs.log(place).place() != place {
            return false;
        }
    }
    true
}

/// Compares how many logs of these versions, ring sizes and places are gathered, or why none are.
fn assert_gathered(
    rt: &(impl Abort + AllocGlobal),
    heads: &[(u8, u8, u8)],
    wanted: Result<u8, HeadFault>,
) {
    let mut logs = Vec::new(rt.alloc());
    for (version, nodes, place) in heads {
        let log = log_in(rt, *version, *nodes, *place, true, &[]);
        logs.push(log).expect(rt, "memory");
    }
    let is_wanted = match Logs::gather(logs) {
        Ok(logs) => are_in_place(&logs) && wanted == Ok(logs.size().get()),
        Err(fault) => wanted == Err(fault),
    };
    assert!(rt; is_wanted, "{heads:?}");
}

#[test]
fn heads_out_of_place(rt: HostRuntime) {
    let rows: [(&[(u8, u8, u8)], Result<u8, HeadFault>); 11] = [
        (&[(1, 2, 0), (1, 2, 1)], Ok(2)),
        (&[(1, 3, 0), (1, 3, 1), (1, 3, 2)], Ok(3)),
        (&[(1, 2, 0)], Err(HeadFault::Number)),
        (&[(1, 2, 1), (1, 2, 0)], Err(HeadFault::Place(0))),
        (&[(1, 2, 0), (1, 3, 1)], Err(HeadFault::Size(1))),
        (&[], Err(HeadFault::Number)),
        (&[(1, 2, 0), (1, 2, 1), (1, 2, 0)], Err(HeadFault::Number)),
        (&[(1, 3, 0), (1, 2, 1)], Err(HeadFault::Number)),
        (&[(1, 2, 1), (1, 3, 1)], Err(HeadFault::Size(1))),
        (&[(1, 3, 0), (1, 3, 1), (1, 3, 1)], Err(HeadFault::Place(2))),
        (&[(1, 3, 2), (1, 4, 1), (1, 5, 0)], Err(HeadFault::Size(1))),
    ];
    for (heads, wanted) in rows {
        assert_gathered(&rt, heads, wanted);
    }
}

#[test]
fn heads_of_two_versions(rt: HostRuntime) {
    let rows: [(&[(u8, u8, u8)], Result<u8, HeadFault>); 7] = [
        (&[(2, 2, 0), (2, 2, 1)], Ok(2)),
        (&[(1, 2, 0), (2, 2, 1)], Err(HeadFault::Version(1))),
        (&[(2, 2, 0), (1, 2, 1)], Err(HeadFault::Version(1))),
        (
            &[(2, 4, 0), (2, 4, 1), (1, 4, 2), (1, 4, 3)],
            Err(HeadFault::Version(2)),
        ),
        (&[(1, 3, 0), (2, 3, 1)], Err(HeadFault::Number)),
        (&[(1, 2, 0), (2, 3, 1)], Err(HeadFault::Size(1))),
        (&[(1, 2, 1), (2, 2, 0)], Err(HeadFault::Place(0))),
    ];
    for (heads, wanted) in rows {
        assert_gathered(&rt, heads, wanted);
    }
}
