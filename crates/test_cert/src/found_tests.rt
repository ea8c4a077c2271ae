use ira_cert::CertStep;
use ira_elim::{Found, decide};
use ira_order::order;
use ira_pred::read_question;
use std::alloc::{Allocator, Global};
use std::process::Abort;
use test_fixtures::{
    ACTIVE_AND_PASSIVE, BOTH_LEAD, ELECTION, EMPTY, FIVE_ASKED, LEADER_AND_ACTIVE, LONE_INITIATOR,
    SECOND_TERM, THREE_ASKED, bytes_of, first_case, five_steps, logs_of, lone_initiator_texts,
    step, three_steps, two_steps,
};

/// What is found of the question's first case.
fn found(alloc: Global, texts: &[&[u8]], question: &[u8]) -> Option<Found<Global>> {
    let logs = logs_of(alloc, texts)?;
    let ordered = order(alloc, &logs).ok()?;
    let question = read_question(alloc, question).ok()?;
    let case = first_case(&question, &logs)?;
    decide(alloc, &logs, &ordered, case).ok()
}

/// Whether the case is absent by exactly these steps.
pub(crate) fn is_absent_by<A: Allocator>(found: &Found<A>, steps: &[CertStep], spent: u8) -> bool {
    match found {
        Found::Absent(section) => section.steps.as_slice() == steps && section.spent == spent,
        Found::Present(_) => false,
    }
}

/// Whether the case is present, first at this cut.
pub(crate) fn is_present_at<A: Allocator>(found: &Found<A>, positions: &[u32]) -> bool {
    match found {
        Found::Absent(_) => false,
        Found::Present(cut) => cut.positions() == positions,
    }
}

/// Compares that the question's first case is absent by exactly these steps.
fn assert_absent(
    rt: &(impl Abort + AllocGlobal),
    texts: &[&[u8]],
    question: &[u8],
    steps: &[CertStep],
    spent: u8,
) {
    let is_absent = match found(rt.alloc(), texts, question) {
        Some(found) => is_absent_by(&found, steps, spent),
        None => false,
    };
    assert!(rt; is_absent);
}

/// Compares that the question's first case is present, first at this cut.
fn assert_present(
    rt: &(impl Abort + AllocGlobal),
    texts: &[&[u8]],
    question: &[u8],
    positions: &[u32],
) {
    let is_present = match found(rt.alloc(), texts, question) {
        Some(found) => is_present_at(&found, positions),
        None => false,
    };
    assert!(rt; is_present);
}

#[test]
fn least_cut_after_one_step(rt: HostRuntime) {
    assert_present(&rt, &ELECTION, ACTIVE_AND_PASSIVE, &[2, 3]);
    let question = b"irask 1\nnodes 2\ncase\n1: passive\nend\n";
    assert_present(&rt, &ELECTION, question, &[2, 3]);
}

#[test]
fn empty_logs_meet_at_start(rt: HostRuntime) {
    let question = b"irask 1\nnodes 2\ncase\n0: choosing\n1: choosing\nend\n";
    assert_present(&rt, &EMPTY, question, &[0, 0]);
}

#[test]
fn made_certificate(rt: HostRuntime) {
    assert_absent(&rt, &ELECTION, LEADER_AND_ACTIVE, &two_steps(), 1);
}

#[test]
fn second_term(rt: HostRuntime) {
    let steps = [step(0, 4, 1, 10)];
    assert_absent(&rt, &SECOND_TERM, BOTH_LEAD, &steps, 0);
    let question = b"irask 1\nnodes 2\ncase\n0: (leader and term = 2)\nend\n";
    assert_absent(&rt, &SECOND_TERM, question, &[], 0);
}

/// At the first step both node 0 and node 1 can be eliminated by node 2, and at the second both node 1 and node 2 by
/// node 0.
#[test]
fn least_pair_first(rt: HostRuntime) {
    assert_absent(&rt, &LONE_INITIATOR, THREE_ASKED, &three_steps(), 2);
}

#[test]
fn five_asked_nodes(rt: HostRuntime) {
    let texts = lone_initiator_texts(rt.alloc(), 5).expect(&rt, "memory");
    let texts = bytes_of(rt.alloc(), &texts).expect(&rt, "memory");
    assert_absent(&rt, &texts, FIVE_ASKED, &five_steps(), 4);
}

/// Neither node has a candidate.
#[test]
fn least_spent_node_first(rt: HostRuntime) {
    let question = b"irask 1\nnodes 2\ncase\n0: passive\n1: leader\nend\n";
    assert_absent(&rt, &ELECTION, question, &[], 0);
}

/// One message goes round a ring of 70, and each node but the first owes it once. Of two nodes the one further on has
/// heard of all that the other one did as soon as it owes.
#[test]
fn least_pairs_of_seventy_places(rt: HostRuntime) {
    let texts = lone_initiator_texts(rt.alloc(), 70).expect(&rt, "memory");
    let texts = bytes_of(rt.alloc(), &texts).expect(&rt, "memory");
    let question = b"irask 1\nnodes 70\ncase\n\
        60: passive\n61: passive\n63: owes\n64: passive\n66: owes\n\
        end\n";
    let steps = [
        step(60, 0, 63, 1),
        step(60, 1, 63, 1),
        step(61, 0, 63, 1),
        step(61, 1, 63, 1),
        step(63, 1, 66, 1),
    ];
    assert_absent(&rt, &texts, question, &steps, 63);
    let question = b"irask 1\nnodes 70\ncase\n\
        62: passive\n64: passive\n65: (not owes)\n67: owes\n69: owes\n\
        end\n";
    let steps = [
        step(62, 0, 67, 1),
        step(62, 1, 67, 1),
        step(64, 0, 67, 1),
        step(64, 1, 67, 1),
        step(65, 0, 67, 1),
        step(67, 1, 69, 1),
    ];
    assert_absent(&rt, &texts, question, &steps, 67);
}
