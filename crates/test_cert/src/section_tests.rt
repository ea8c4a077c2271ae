//! The worked sections.

use crate::verdicts::{judge, judge_split};
use ira_cert::{
    CertStep, Section, SectionFault, Unsound, Verdict, candidates_left, case_queues, check_queues,
    eliminate,
};
use ira_links::OpenGate;
use ira_order::order;
use ira_pred::read_question;
use std::alloc::Global;
use std::process::Abort;
use std::sync::Wait;
use std::thread::Threads;
use std::time::Clock;
use test_fixtures::{
    ACTIVE_AND_PASSIVE, BOTH_LEAD, ELECTION, FIVE_ASKED, LEADER, LEADER_AND_ACTIVE,
    LEADER_AND_UNBEATEN, LONE_INITIATOR, SECOND_TERM, THREE_ASKED, TIE, bytes_of, first_case,
    five_steps, logs_of, lone_initiator_texts, step, three_steps, two_steps,
};

const fn no(step: usize, why: Unsound) -> Verdict {
    Verdict::No(SectionFault::Step(step, why))
}

/// Compares the verdict on a section, of the plain checker and at each depth.
fn assert_verdict_of<R: Abort + AllocGlobal + Threads + Wait + Clock + Sync>(
    rt: &R,
    texts: &[&[u8]],
    question: &[u8],
    steps: &[CertStep],
    spent: u8,
    verdict: Verdict,
) {
    let found = judge(rt, texts, question, steps, spent);
    assert!(rt; found == verdict, "{found:?}");
    for depth in 0..5 {
        let found = judge_split(rt, texts, question, steps, spent, depth, &OpenGate);
        assert!(rt; found == verdict, "{found:?} at depth {depth}");
    }
}

/// The same of a section for the two-node election.
fn assert_verdict<R: Abort + AllocGlobal + Threads + Wait + Clock + Sync>(
    rt: &R,
    question: &[u8],
    steps: &[CertStep],
    spent: u8,
    verdict: Verdict,
) {
    assert_verdict_of(rt, &ELECTION, question, steps, spent, verdict);
}

#[test]
fn section_without_steps(rt: HostRuntime) {
    assert_verdict(&rt, BOTH_LEAD, &[], 1, Verdict::Yes);
    let other = Verdict::No(SectionFault::NotSpent(0));
    assert_verdict(&rt, BOTH_LEAD, &[], 0, other);
}

#[test]
fn two_step_section(rt: HostRuntime) {
    assert_verdict(&rt, LEADER_AND_ACTIVE, &two_steps(), 1, Verdict::Yes);
}

#[test]
fn steps_of_three_nodes(rt: HostRuntime) {
    let steps = three_steps();
    assert_verdict_of(&rt, &LONE_INITIATOR, THREE_ASKED, &steps, 2, Verdict::Yes);
    let not_spent = Verdict::No(SectionFault::NotSpent(1));
    assert_verdict_of(&rt, &LONE_INITIATOR, THREE_ASKED, &steps, 1, not_spent);
    let [first, _, last] = steps;
    // node 1 has received nothing at its first candidate
    let early = [first, step(2, 1, 1, 0), last];
    let not_before = no(1, Unsound::NotBefore);
    assert_verdict_of(&rt, &LONE_INITIATOR, THREE_ASKED, &early, 2, not_before);
}

#[test]
fn steps_of_five_nodes(rt: HostRuntime) {
    let texts = lone_initiator_texts(rt.alloc(), 5).expect(&rt, "memory");
    let texts = bytes_of(rt.alloc(), &texts).expect(&rt, "memory");
    assert_verdict_of(&rt, &texts, FIVE_ASKED, &five_steps(), 4, Verdict::Yes);
}

/// Judges a section of these steps that spends node 1, for the queues that are left when node 1 lost its first one:
/// what node 1 has first then, and the verdict.
fn judge_after_an_elimination(alloc: Global, steps: &[CertStep]) -> Option<(Option<u32>, Verdict)> {
    let logs = logs_of(alloc, &ELECTION)?;
    let ordered = order(alloc, &logs).ok()?;
    let question = read_question(alloc, LEADER_AND_ACTIVE).ok()?;
    let case = first_case(&question, &logs)?;
    let steps = steps.to_vec(alloc).ok()?;
    let section = Section { steps, spent: 1 };
    let mut queues = case_queues(alloc, &logs, case).ok()?;
    eliminate(&mut queues, 1);
    let left = candidates_left(&queues, 1).and_then(|candidates| candidates.front());
    Some((left, check_queues(&ordered, queues, &section)))
}

#[test]
fn candidates_after_an_elimination(rt: HostRuntime) {
    let judged = judge_after_an_elimination(rt.alloc(), &[step(1, 2, 0, 4)]);
    assert!(rt; judged == Some((Some(2), Verdict::Yes)), "{judged:?}");
}

#[test]
fn second_term(rt: HostRuntime) {
    let steps = [step(0, 4, 1, 10)];
    assert_verdict_of(&rt, &SECOND_TERM, BOTH_LEAD, &steps, 0, Verdict::Yes);
    let not_spent = Verdict::No(SectionFault::NotSpent(0));
    assert_verdict_of(&rt, &SECOND_TERM, BOTH_LEAD, &[], 0, not_spent);
}

#[test]
fn section_cut_and_swapped(rt: HostRuntime) {
    let cut = [step(1, 1, 0, 4)];
    let not_spent = Verdict::No(SectionFault::NotSpent(1));
    assert_verdict(&rt, LEADER_AND_ACTIVE, &cut, 1, not_spent);
    let swapped = [step(1, 2, 0, 4), step(1, 1, 0, 4)];
    let not_front = no(0, Unsound::NotFront);
    assert_verdict(&rt, LEADER_AND_ACTIVE, &swapped, 1, not_front);
}

#[test]
fn least_cut_after_one_step(rt: HostRuntime) {
    let steps = [step(0, 1, 1, 3), step(0, 2, 1, 3)];
    let not_before = no(1, Unsound::NotBefore);
    assert_verdict(&rt, ACTIVE_AND_PASSIVE, &steps, 0, not_before);
}

#[test]
fn eight_step_section(rt: HostRuntime) {
    let mut steps = [
        step(1, 0, 0, 9),
        step(1, 1, 0, 9),
        step(1, 2, 0, 9),
        step(1, 3, 0, 9),
        step(1, 4, 0, 9),
        step(1, 5, 0, 9),
        step(1, 6, 0, 9),
        step(1, 7, 0, 9),
    ];
    assert_verdict_of(&rt, &TIE, LEADER_AND_UNBEATEN, &steps, 1, Verdict::Yes);
    steps[1] = step(1, 3, 0, 9);
    steps[7] = step(1, 0, 0, 9);
    let not_front = no(1, Unsound::NotFront);
    assert_verdict_of(&rt, &TIE, LEADER_AND_UNBEATEN, &steps, 1, not_front);
}

#[test]
fn other_ring_sizes_and_asked_nodes(rt: HostRuntime) {
    let steps = [step(0, 4, 1, 0)];
    let spent = no(0, Unsound::NodeSpent);
    assert_verdict(&rt, BOTH_LEAD, &steps, 1, spent);
    let steps = [step(1, 1, 1, 2), step(1, 2, 0, 4)];
    let same = no(0, Unsound::SameNode);
    assert_verdict(&rt, LEADER_AND_ACTIVE, &steps, 1, same);
    let not_asked = no(0, Unsound::NotAsked);
    assert_verdict(&rt, LEADER, &[step(0, 4, 1, 4)], 1, not_asked);
}

#[test]
fn places_past_the_ring(rt: HostRuntime) {
    let not_asked = no(0, Unsound::NotAsked);
    for place in [2, 200, 255] {
        for step in [
            step(place, 1, 0, 4),
            step(1, 1, place, 4),
            step(place, 0, place, 0),
        ] {
            assert_verdict(&rt, LEADER_AND_ACTIVE, &[step], 1, not_asked);
        }
        let not_spent = Verdict::No(SectionFault::NotSpent(place));
        assert_verdict(&rt, BOTH_LEAD, &[], place, not_spent);
    }
}

#[test]
fn events_that_do_not_exist(rt: HostRuntime) {
    let not_before = no(0, Unsound::NotBefore);
    // No event led to the first state.
    let question = b"irask 1\nnodes 2\ncase\n0: choosing\n1: active\nend\n";
    assert_verdict(&rt, question, &[step(1, 1, 0, 0)], 1, not_before);
    // No event leads on from the last one.
    assert_verdict(&rt, LEADER_AND_ACTIVE, &[step(0, 4, 1, 1)], 0, not_before);
}

#[test]
fn numbers_past_each_log(rt: HostRuntime) {
    let not_front = no(0, Unsound::NotFront);
    for step in [
        step(1, u32::MAX, 0, 4),
        step(1, 1, 0, u32::MAX),
        step(1, u32::MAX, 0, u32::MAX),
    ] {
        assert_verdict(&rt, LEADER_AND_ACTIVE, &[step], 1, not_front);
    }
}
