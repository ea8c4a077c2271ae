ghost use Rattle.std.specs.Prelude.{◌≤◌};

use crate::lines::has_line;
use crate::pairs::pairs_text;
use ira_audit::audit;
use ira_event::OutOfMemory;
use ira_links::OpenGate;
use std::process::Abort;
use std::sync::Wait;
use std::thread::Threads;
use std::time::Clock;
use test_fixtures::{
    ACTIVE_AND_PASSIVE, BOTH_LEAD, BOTH_LEAD_OF_THREE, CUT_1, ELECTION, ELECTION_0, FIVE_ASKED,
    FIVE_STEPS, LEADER, LEADER_AND_ACTIVE, LEADER_AND_OTHER, LONE_INITIATOR, NODE_1_SPENT,
    NODE_1_SPENT_OF_THREE, NOT_BEFORE, SECOND_TERM, THREE_ASKED, THREE_STEPS, TWO_SECTIONS,
    bytes_of, lone_initiator_texts,
};

/// Whether the answer at this depth has this line.
pub(crate) fn is_answered<R>(
    rt: &R,
    texts: &[&[u8]],
    question: &[u8],
    certificate: &[u8],
    depth: u8,
    line: &[u8],
) -> bool
where
    R: AllocGlobal + Threads + Wait + Clock + Sync,
    requires { depth ≤ 4 }
{
    let alloc = rt.alloc();
    let answer = audit(rt, alloc, texts, question, certificate, depth, &OpenGate);
    match answer {
        Ok(answer) => has_line(alloc, &answer, line),
        Err(OutOfMemory) => false,
    }
}

/// Judges the texts at each depth, and compares the answer's line.
fn assert_answered<R>(rt: &R, texts: &[&[u8]], question: &[u8], certificate: &[u8], line: &str)
where
    R: Abort + AllocGlobal + Threads + Wait + Clock + Sync,
{
    for depth in 0..5 {
        let is_answered = is_answered(rt, texts, question, certificate, depth, line.as_bytes());
        assert!(rt; is_answered, "not at depth {depth}: {line}");
    }
}

#[test]
fn sections_with_and_without_steps(rt: HostRuntime) {
    assert_answered(&rt, &ELECTION, LEADER_AND_OTHER, TWO_SECTIONS, "yes\n");
    let other =
        b"ircert 1\nnodes 2\nsection\nspent 0\nsection\ndrop 1 1 by 0 4\ndrop 1 2 by 0 4\nspent 1\nend\n";
    let line = "no: case 0: node 0 not spent\n";
    assert_answered(&rt, &ELECTION, LEADER_AND_OTHER, other, line);
}

/// The case is met: no section is sound for it.
#[test]
fn case_that_is_met(rt: HostRuntime) {
    let line = "no: case 0: step 1: not before\n";
    assert_answered(&rt, &ELECTION, ACTIVE_AND_PASSIVE, NOT_BEFORE, line);
}

#[test]
fn three_asked_nodes(rt: HostRuntime) {
    assert_answered(&rt, &LONE_INITIATOR, THREE_ASKED, THREE_STEPS, "yes\n");
}

#[test]
fn five_asked_nodes(rt: HostRuntime) {
    let texts = lone_initiator_texts(rt.alloc(), 5).expect(&rt, "memory");
    let texts = bytes_of(rt.alloc(), &texts).expect(&rt, "memory");
    let line = "no: case 1: node 0 not spent\n";
    assert_answered(&rt, &texts, FIVE_ASKED, FIVE_STEPS, line);
}

#[test]
fn pairs_of_three(rt: HostRuntime) {
    let question = pairs_text(&rt, 3);
    let question = question.bytes();
    let certificate =
        b"ircert 1\nnodes 3\nsection\nspent 1\nsection\nspent 2\nsection\nspent 1\nend\n";
    assert_answered(&rt, &LONE_INITIATOR, question, certificate, "yes\n");
    let certificate = b"ircert 1\nnodes 3\nsection\nspent 1\nsection\nspent 2\nend\n";
    let line = "no: sections: 3 wanted, 2 found\n";
    assert_answered(&rt, &LONE_INITIATOR, question, certificate, line);
    let certificate =
        b"ircert 1\nnodes 3\nsection\nspent 1\nsection\nspent 1\nsection\nspent 1\nend\n";
    let line = "no: case 1: node 1 not spent\n";
    assert_answered(&rt, &LONE_INITIATOR, question, certificate, line);
}

/// The lone initiator is spent in no case of it: each other node is passive from the start.
#[test]
fn pairs_of_the_largest_ring(rt: HostRuntime) {
    let texts = lone_initiator_texts(rt.alloc(), 255).expect(&rt, "memory");
    let texts = bytes_of(rt.alloc(), &texts).expect(&rt, "memory");
    let question = pairs_text(&rt, 255);
    let mut certificate = String::new(rt.alloc());
    certificate
        .push_str("ircert 1\nnodes 255\n")
        .expect(&rt, "memory");
    for first in 0..254u8 {
        for second in first + 1..255 {
            let spent = if first == 0 { second } else { first };
            let section = format!(in rt.alloc(); "section\nspent {spent}\n").expect(&rt, "memory");
            certificate.push_str(&section).expect(&rt, "memory");
        }
    }
    certificate.push_str("end\n").expect(&rt, "memory");
    let answered = is_answered(
        &rt,
        &texts,
        question.bytes(),
        certificate.as_bytes(),
        2,
        b"yes\n",
    );
    assert!(rt; answered);
}

#[test]
fn other_ring_sizes_and_asked_nodes(rt: HostRuntime) {
    let rows: [(&[u8], &[u8], &str); 5] = [
        (
            BOTH_LEAD_OF_THREE,
            NODE_1_SPENT,
            "no: question: other ring size\n",
        ),
        (
            BOTH_LEAD,
            NODE_1_SPENT_OF_THREE,
            "no: certificate: other ring size\n",
        ),
        (
            BOTH_LEAD,
            b"ircert 1\nnodes 2\nsection\ndrop 0 4 by 1 0\nspent 1\nend\n",
            "no: case 0: step 0: node spent\n",
        ),
        (
            LEADER_AND_ACTIVE,
            b"ircert 1\nnodes 2\nsection\ndrop 1 1 by 1 2\ndrop 1 2 by 0 4\nspent 1\nend\n",
            "no: case 0: step 0: same node\n",
        ),
        (
            LEADER,
            b"ircert 1\nnodes 2\nsection\ndrop 0 4 by 1 4\nspent 1\nend\n",
            "no: case 0: step 0: not asked\n",
        ),
    ];
    for (question, certificate, line) in rows {
        assert_answered(&rt, &ELECTION, question, certificate, line);
    }
}

#[test]
fn certificate_faults(rt: HostRuntime) {
    let rows: [(&[u8], &str); 10] = [
        (
            b"ircert 1\nnodes 2\nend\n",
            "no: sections: 1 wanted, 0 found\n",
        ),
        (
            b"ircert 1\nnodes 2\nsection\nend\n",
            "no: certificate: line 4\n",
        ),
        (
            b"ircert 1\nnodes 2\ndrop 1 1 by 0 4\nend\n",
            "no: certificate: line 3\n",
        ),
        (
            b"ircert 1\nnodes 2\nsection\ndrop 2 1 by 0 4\nspent 1\nend\n",
            "no: certificate: range 4\n",
        ),
        (
            b"ircert 1\nnodes 2\nsection\ndrop 1 100001 by 0 4\nspent 1\nend\n",
            "no: certificate: range 4\n",
        ),
        (
            b"ircert 1\nnodes 2\nsection\ndrop 1 1 by 0\nspent 1\nend\n",
            "no: certificate: line 4\n",
        ),
        (
            b"ircert 1\nnodes 2\nsection\nspent 2\nend\n",
            "no: certificate: range 4\n",
        ),
        (
            b"ircert 1\nnodes 2\nsection\nspent 1",
            "no: certificate: cut\n",
        ),
        (
            b"ircert 1\nnodes 2\nsection\nspent 1\nend\nend\n",
            "no: certificate: trailing\n",
        ),
        (b"ircert 2\nnodes 2\nend\n", "no: certificate: head\n"),
    ];
    for (certificate, line) in rows {
        assert_answered(&rt, &ELECTION, BOTH_LEAD, certificate, line);
    }
}

#[test]
fn more_sections_than_a_certificate_may_have(rt: HostRuntime) {
    let mut text = b"ircert 1\nnodes 2\n"
        .to_vec(rt.alloc())
        .expect(&rt, "memory");
    let sections = b"section\nspent 1\n"
        .repeat(rt.alloc(), 32_386)
        .expect(&rt, "memory");
    text.extend_from_slice(&sections).expect(&rt, "memory");
    let line = b"no: certificate: too many\n";
    assert!(rt; is_answered(&rt, &ELECTION, BOTH_LEAD, &text, 2, line));
}

#[test]
fn texts_too_long(rt: HostRuntime) {
    let long = vec![in rt.alloc(); b'x'; 67_108_865].expect(&rt, "memory");
    let logs = [ELECTION_0, &long];
    let are_answered = [
        is_answered(
            &rt,
            &logs,
            BOTH_LEAD,
            NODE_1_SPENT,
            2,
            b"no: log 1: too long\n",
        ),
        is_answered(
            &rt,
            &ELECTION,
            &long,
            NODE_1_SPENT,
            2,
            b"no: question: too long\n",
        ),
        is_answered(
            &rt,
            &ELECTION,
            BOTH_LEAD,
            &long,
            2,
            b"no: certificate: too long\n",
        ),
    ];
    assert!(rt; are_answered == [true, true, true], "{are_answered:?}");
}

#[test]
fn question_faults(rt: HostRuntime) {
    let rows: [(&[u8], &str); 9] = [
        (b"irask 1\nnodes 2\nend\n", "no: question: cases\n"),
        (
            b"irask 1\nnodes 2\n0: leader\nend\n",
            "no: question: line 3\n",
        ),
        (b"irask 1\nnodes 2\ncase\nend\n", "no: question: empty 4\n"),
        (
            b"irask 1\nnodes 2\ncase\n2: true\nend\n",
            "no: question: place 4\n",
        ),
        (
            b"irask 1\nnodes 2\ncase\n0: leader and owes\nend\n",
            "no: question: line 4\n",
        ),
        (
            b"irask 1\nnodes 2\ncase\n0: (((((((((((((((((((((((((((((((((\nend\n",
            "no: question: depth 4\n",
        ),
        (b"irask 1\nnodes 2\ncase\n0: true", "no: question: cut\n"),
        (
            b"irask 1\nnodes 2\ncase\n0: true\nend\nend\n",
            "no: question: trailing\n",
        ),
        (b"irask 2\nnodes 2\nend\n", "no: question: head\n"),
    ];
    for (question, line) in rows {
        assert_answered(&rt, &ELECTION, question, NODE_1_SPENT, line);
    }
}

#[test]
fn logs_are_judged_first(rt: HostRuntime) {
    let line = "no: heads: number\n";
    assert_answered(&rt, &[ELECTION_0], b"", b"", line);
    assert_answered(&rt, &[ELECTION_0, CUT_1], b"", b"", "no: log 1: cut\n");
    assert_answered(&rt, &ELECTION, b"", b"", "no: question: head\n");
}

#[test]
fn second_term(rt: HostRuntime) {
    let certificate = b"ircert 1\nnodes 2\nsection\ndrop 0 4 by 1 10\nspent 0\nend\n";
    assert_answered(&rt, &SECOND_TERM, BOTH_LEAD, certificate, "yes\n");
    let certificate = b"ircert 1\nnodes 2\nsection\nspent 0\nend\n";
    let line = "no: case 0: node 0 not spent\n";
    assert_answered(&rt, &SECOND_TERM, BOTH_LEAD, certificate, line);
}
