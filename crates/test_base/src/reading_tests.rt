//! Texts of logs that are read.

use crate::samples::text_of;
use ira_event::{Event, Load, LogFault, NodeLog, RingSize, read_log};
use std::alloc::Global;
use std::process::Abort;
use test_fixtures::{
    ELECTION_0, ELECTION_1, HEAD_0, SECOND_TERM, clean, loser, next_leader, winner, yielder,
};

/// `HEAD_0` in version 2.
const LATER_HEAD: &[u8] = b"irlog 2\nnodes 2\nplace 0\nstart initiator\n";

/// What reading the text answers: the number of its events, or its fault.
fn answer(alloc: Global, text: &[u8]) -> Result<usize, LogFault> {
    Ok(read_log(alloc, text)?.len())
}

fn assert_answer(rt: &(impl Abort + AllocGlobal), text: &[u8], wanted: Result<usize, LogFault>) {
    let text_len = text.len();
    assert_eq!(rt;
        answer(rt.alloc(), text),
        wanted,
        "a text of {text_len} bytes"
    );
}

/// Compares what reading the text of these parts answers, of which the second stands there so many times.
fn assert_parts(
    rt: &(impl Abort + AllocGlobal),
    first: &[u8],
    line: &[u8],
    lines: usize,
    last: &[u8],
    wanted: Result<usize, LogFault>,
) {
    assert_answer(rt, &text_of(rt, first, line, lines, last), wanted);
}

/// The version, ring size, place and start of the log of this text, where these are its events.
fn head_of(alloc: Global, text: &[u8], events: &[Event]) -> Option<(u8, u8, u8, bool)> {
    let log = read_log(alloc, text).ok()?;
    let found: Vec<Event> = log.events().collect(alloc).ok()?;
    if found.as_slice() != events {
        return None;
    }
    Some((
        log.version(),
        log.nodes().get(),
        log.place(),
        log.initiator(),
    ))
}

/// The last event of the log of four events of this text.
fn fourth_of(alloc: Global, text: &[u8]) -> Option<Event> {
    let log = read_log(alloc, text).ok()?;
    if log.len() != 4 {
        return None;
    }
    Some(log.event(4))
}

#[test]
fn two_node_election(rt: HostRuntime) {
    assert_eq!(rt; ELECTION_0.len(), 104);
    let heads = [
        head_of(rt.alloc(), ELECTION_0, &winner()),
        head_of(rt.alloc(), ELECTION_1, &loser()),
    ];
    let last = fourth_of(rt.alloc(), ELECTION_0);
    assert!(rt; heads == [Some((1, 2, 0, true)), Some((1, 2, 1, true))]);
    assert!(rt; last == Some(Event::Got(clean(1, 2, 2))));
}

#[test]
fn log_text_table(rt: HostRuntime) {
    for (head, lines, wanted) in [
        (LATER_HEAD, b"end 0\n".as_slice(), Ok(0)),
        (
            b"irlog 3\nnodes 2\nplace 0\nstart initiator\n".as_slice(),
            b"end 0\n".as_slice(),
            Err(LogFault::Head),
        ),
        (
            b"irlog 02\nnodes 2\nplace 0\nstart initiator\n".as_slice(),
            b"end 0\n".as_slice(),
            Err(LogFault::Head),
        ),
        (
            b"irlog 1\nnodes 1\nplace 0\nstart initiator\n".as_slice(),
            b"end 0\n".as_slice(),
            Err(LogFault::Head),
        ),
        (
            b"irlog 1\nnodes 64\nplace 63\nstart initiator\n".as_slice(),
            b"end 0\n".as_slice(),
            Ok(0),
        ),
        (
            b"irlog 1\nnodes 65\nplace 0\nstart initiator\n".as_slice(),
            b"end 0\n".as_slice(),
            Err(LogFault::Head),
        ),
        (
            b"irlog 2\nnodes 255\nplace 254\nstart initiator\n".as_slice(),
            b"end 0\n".as_slice(),
            Ok(0),
        ),
        (
            b"irlog 2\nnodes 256\nplace 0\nstart initiator\n".as_slice(),
            b"end 0\n".as_slice(),
            Err(LogFault::Head),
        ),
        (
            b"irlog 1\nnodes 2\nplace 2\nstart initiator\n".as_slice(),
            b"end 0\n".as_slice(),
            Err(LogFault::Head),
        ),
        (b"".as_slice(), b"".as_slice(), Err(LogFault::Head)),
        (
            b"irlog 1\nnodes 18446744073709551618\nplace 0\nstart initiator\n".as_slice(),
            b"end 0\n".as_slice(),
            Err(LogFault::Head),
        ),
        (HEAD_0, b"end 0\n".as_slice(), Ok(0)),
        (HEAD_0, b"draw 01\n".as_slice(), Err(LogFault::Line(5))),
        (
            HEAD_0,
            b"draw 1000001\n".as_slice(),
            Err(LogFault::Range(5)),
        ),
        (HEAD_0, b"draw 0\n".as_slice(), Err(LogFault::Range(5))),
        (HEAD_0, b"draw 1000000\nend 1\n".as_slice(), Ok(1)),
        (
            HEAD_0,
            b"recv 0 1 1 clean\n".as_slice(),
            Err(LogFault::Range(5)),
        ),
        (
            HEAD_0,
            b"recv 1 1 1 Clean\n".as_slice(),
            Err(LogFault::Line(5)),
        ),
        (HEAD_0, b"end 0\r\n".as_slice(), Err(LogFault::Line(5))),
        (HEAD_0, b"end 0".as_slice(), Err(LogFault::Cut)),
        (
            HEAD_0,
            b"draw 18446744073709551617\n".as_slice(),
            Err(LogFault::Range(5)),
        ),
        (
            HEAD_0,
            b"end 18446744073709551616\n".as_slice(),
            Err(LogFault::Count),
        ),
    ] {
        assert_parts(&rt, head, b"", 0, lines, wanted);
    }
}

/// Yields and resets in texts of both versions.
#[test]
fn records_of_version_2(rt: HostRuntime) {
    for (head, lines, wanted) in [
        (
            LATER_HEAD,
            b"yield\nsend reset 1\nrecv reset 1000000\nend 3\n".as_slice(),
            Ok(3),
        ),
        (
            LATER_HEAD,
            b"recv reset 0\n".as_slice(),
            Err(LogFault::Range(5)),
        ),
        (
            LATER_HEAD,
            b"send reset 1000001\n".as_slice(),
            Err(LogFault::Range(5)),
        ),
        (
            LATER_HEAD,
            b"recv reset 01\n".as_slice(),
            Err(LogFault::Line(5)),
        ),
        (
            LATER_HEAD,
            b"recv reset 1 clean\n".as_slice(),
            Err(LogFault::Line(5)),
        ),
        (LATER_HEAD, b"yield \n".as_slice(), Err(LogFault::Line(5))),
        (LATER_HEAD, b"yield".as_slice(), Err(LogFault::Cut)),
        (HEAD_0, b"yield\n".as_slice(), Err(LogFault::Line(5))),
        (HEAD_0, b"send reset 1\n".as_slice(), Err(LogFault::Line(5))),
        (HEAD_0, b"recv reset 0\n".as_slice(), Err(LogFault::Line(5))),
    ] {
        assert_parts(&rt, head, b"", 0, lines, wanted);
    }
}

#[test]
fn second_term(rt: HostRuntime) {
    let heads = [
        head_of(rt.alloc(), SECOND_TERM[0], &yielder()),
        head_of(rt.alloc(), SECOND_TERM[1], &next_leader()),
    ];
    assert!(rt; heads == [Some((2, 2, 0, true)), Some((2, 2, 1, true))]);
}

#[test]
fn endings_of_a_log_text(rt: HostRuntime) {
    let (front, _) = ELECTION_0.split_at(98);
    for (last, wanted) in [
        (b"".as_slice(), Err(LogFault::Cut)),
        (b"end 3\n".as_slice(), Err(LogFault::Count)),
        (b"end 4\nx".as_slice(), Err(LogFault::Trailing)),
        (b"end 3\nx".as_slice(), Err(LogFault::Count)),
        (b"end 4\n".as_slice(), Ok(4)),
    ] {
        assert_parts(&rt, front, b"", 0, last, wanted);
    }
}

#[test]
fn prefixes_and_repetition(rt: HostRuntime) {
    for n in 0..104 {
        let (front, _) = ELECTION_0.split_at(n);
        let wanted = if n < 40 {
            LogFault::Head
        } else {
            LogFault::Cut
        };
        assert_answer(&rt, front, Err(wanted));
    }
    assert_parts(&rt, b"", ELECTION_0, 2, b"", Err(LogFault::Trailing));
}

#[test]
fn as_many_records_as_a_log_has(rt: HostRuntime) {
    for (head, last, wanted) in [
        (HEAD_0, b"end 100000\n".as_slice(), Ok(100_000)),
        (HEAD_0, b"draw 1\n".as_slice(), Err(LogFault::TooMany)),
        (HEAD_0, b"draw x\n".as_slice(), Err(LogFault::TooMany)),
        (HEAD_0, b"draw x".as_slice(), Err(LogFault::Cut)),
        (HEAD_0, b"drop\n".as_slice(), Err(LogFault::Line(100_005))),
        (HEAD_0, b"yield\n".as_slice(), Err(LogFault::Line(100_005))),
        (HEAD_0, b"send reset 1\n".as_slice(), Err(LogFault::TooMany)),
        (LATER_HEAD, b"end 100000\n".as_slice(), Ok(100_000)),
        (LATER_HEAD, b"yield\n".as_slice(), Err(LogFault::TooMany)),
        (
            LATER_HEAD,
            b"yield \n".as_slice(),
            Err(LogFault::Line(100_005)),
        ),
        (LATER_HEAD, b"yield".as_slice(), Err(LogFault::Cut)),
        (
            LATER_HEAD,
            b"send reset 1\n".as_slice(),
            Err(LogFault::TooMany),
        ),
    ] {
        assert_parts(&rt, head, b"draw 1\n", 100_000, last, wanted);
    }
}

#[test]
fn one_byte_too_long(rt: HostRuntime) {
    let longest = 67_108_864;
    assert_parts(&rt, b"", b"x", longest + 1, b"", Err(LogFault::TooLong));
    assert_parts(&rt, b"", b"x", longest, b"", Err(LogFault::Head));
}

/// Compares whether a log of this version of a node at this place of a ring of so many may have this event.
fn assert_log_of(
    rt: &(impl Abort + AllocGlobal),
    version: u8,
    nodes: u8,
    place: u8,
    event: Event,
    wanted: bool,
) {
    let size = RingSize::new(nodes).expect(rt, "a ring of that size");
    let events = vec![in rt.alloc(); event].expect(rt, "memory");
    let is_log = NodeLog::new(version, size, place, true, events).is_some();
    assert!(rt; is_log == wanted, "{version} {nodes} {place} {event:?}");
}

/// The same of a ring of two.
fn assert_log(rt: &(impl Abort + AllocGlobal), version: u8, place: u8, event: Event, wanted: bool) {
    assert_log_of(rt, version, 2, place, event, wanted);
}

#[test]
fn sizes_of_rings(rt: HostRuntime) {
    assert!(rt;
        RingSize::new(1).is_none() && RingSize::new(2).is_some() && RingSize::new(255).is_some()
    );
    for (version, nodes, place, wanted) in [
        (1, 64, 63, true),
        (1, 65, 0, false),
        (1, 255, 0, false),
        (2, 65, 64, true),
        (2, 255, 254, true),
        (2, 255, 255, false),
    ] {
        assert_log_of(&rt, version, nodes, place, Event::Draw(1), wanted);
    }
}

#[test]
fn logs_out_of_range(rt: HostRuntime) {
    for (place, drawn, wanted) in [
        (0, 1, true),
        (1, 1_000_000, true),
        (2, 1, false),
        (0, 0, false),
        (0, 1_000_001, false),
    ] {
        assert_log(&rt, 1, place, Event::Draw(drawn), wanted);
    }
}

#[test]
fn versions_of_logs(rt: HostRuntime) {
    let reset = Load::Reset(1);
    for (version, event, wanted) in [
        (0, Event::Draw(1), false),
        (1, Event::Draw(1), true),
        (2, Event::Draw(1), true),
        (3, Event::Draw(1), false),
        (1, Event::Yield, false),
        (1, Event::Sent(reset), false),
        (1, Event::Got(reset), false),
        (2, Event::Yield, true),
        (2, Event::Sent(reset), true),
        (2, Event::Got(Load::Reset(1_000_000)), true),
        (2, Event::Sent(Load::Reset(0)), false),
        (2, Event::Got(Load::Reset(1_000_001)), false),
    ] {
        assert_log(&rt, version, 0, event, wanted);
    }
}
