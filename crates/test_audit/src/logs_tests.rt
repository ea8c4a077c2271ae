//! Answers about logs that the tests of the program don't have.

use crate::lines::has_line;
use ira_audit::{Answer, Reason, audit_logs, audit_one};
use ira_node::StepFault;
use std::process::Abort;
use test_fixtures::{CUT_1, ELECTION_0, EMPTY_0, HEAD_0, bytes_of, lone_initiator_texts};

/// Judges the texts and compares the answer's line.
fn assert_reported(rt: &(impl Abort + AllocGlobal), texts: &[&[u8]], line: &str) {
    let answer = audit_logs(rt.alloc(), texts).expect(rt, "memory");
    assert!(rt;
        has_line(rt.alloc(), &answer, line.as_bytes()),
        "not {line}"
    );
}

#[test]
fn largest_ring(rt: HostRuntime) {
    let texts = lone_initiator_texts(rt.alloc(), 255).expect(&rt, "memory");
    let texts = bytes_of(rt.alloc(), &texts).expect(&rt, "memory");
    assert_reported(&rt, &texts, "yes\n");
}

#[test]
fn no_logs(rt: HostRuntime) {
    assert_reported(&rt, &[], "no: heads: number\n");
}

#[test]
fn text_without_end(rt: HostRuntime) {
    assert_reported(&rt, &[ELECTION_0, CUT_1], "no: log 1: cut\n");
    assert_reported(&rt, &[b"", CUT_1], "no: log 0: head\n");
}

#[test]
fn second_log_stops(rt: HostRuntime) {
    let drawn = b"irlog 1\nnodes 2\nplace 1\nstart initiator\ndraw 1\ndraw 2\nend 2\n";
    assert_reported(&rt, &[EMPTY_0, drawn], "no: node 1: event 2: owes\n");
}

/// Judges the text of one log alone, and compares the answer's line.
fn assert_reported_alone(rt: &(impl Abort + AllocGlobal), text: &[u8], line: &str) {
    let answer = audit_one(rt.alloc(), text).expect(rt, "memory");
    assert!(rt;
        has_line(rt.alloc(), &answer, line.as_bytes()),
        "not {line}"
    );
}

#[test]
fn events_without_a_step(rt: HostRuntime) {
    let rows: [(&[u8], &str); 4] = [
        (
            b"irlog 1\nnodes 2\nplace 0\nstart passive\ndraw 1\nend 1\n",
            "no: node 0: event 1: not choosing\n",
        ),
        (
            b"irlog 1\nnodes 2\nplace 0\nstart initiator\nrecv 1 1 1 clean\nend 1\n",
            "no: node 0: event 1: must draw\n",
        ),
        (
            b"irlog 1\nnodes 2\nplace 0\nstart initiator\n\
            draw 1\n\
            send 1 1 1 clean\n\
            recv 1 1 3 clean\n\
            end 3\n",
            "no: node 0: event 3: hop past\n",
        ),
        (
            b"irlog 1\nnodes 2\nplace 0\nstart passive\nrecv 1 1 1000000 clean\nend 1\n",
            "no: node 0: event 1: hop limit\n",
        ),
    ];
    for (text, line) in rows {
        assert_reported_alone(&rt, text, line);
    }
}

#[test]
fn more_records_than_a_log_may_have(rt: HostRuntime) {
    let mut text = HEAD_0.to_vec(rt.alloc()).expect(&rt, "memory");
    let records = b"draw 1\n"
        .repeat(rt.alloc(), 100_001)
        .expect(&rt, "memory");
    text.extend_from_slice(&records).expect(&rt, "memory");
    assert_reported_alone(&rt, &text, "no: log 0: too many records\n");
}

// No log has as many records as lead there.
#[test]
fn events_past_the_last_round_and_term(rt: HostRuntime) {
    for (fault, line) in [
        (StepFault::RoundLimit, "no: node 1: event 3: round limit\n"),
        (StepFault::TermLimit, "no: node 1: event 3: term limit\n"),
    ] {
        let answer = Answer::No(Reason::Replay {
            place: 1,
            position: 3,
            fault,
        });
        assert!(rt;
            has_line(rt.alloc(), &answer, line.as_bytes()),
            "not {line}"
        );
    }
}

#[test]
fn steps_of_terms(rt: HostRuntime) {
    let rows: [(&[u8], &str); 3] = [
        (
            b"irlog 2\nnodes 2\nplace 0\nstart passive\nyield\nend 1\n",
            "no: node 0: event 1: not leader\n",
        ),
        (
            b"irlog 2\nnodes 2\nplace 0\nstart passive\nrecv reset 2\nend 1\n",
            "no: node 0: event 1: wrong reset\n",
        ),
        (
            b"irlog 2\nnodes 2\nplace 0\nstart initiator\n\
            draw 2\n\
            send 1 2 1 clean\n\
            recv 1 1 1 clean\n\
            recv 1 2 2 clean\n\
            yield\n\
            send reset 1\n\
            recv 1 2 2 clean\n\
            end 7\n",
            "no: node 0: event 7: not a reset\n",
        ),
    ];
    for (text, line) in rows {
        assert_reported_alone(&rt, text, line);
    }
}
