//! Each number from 0 to 5 in place of each number of the two steps of a sound certificate: the answer is that of a
//! plain computation.

use ira_audit::{Answer, Reason, audit};
use ira_cert::{SectionFault, Unsound};
use ira_cert_text::CertFault;
use ira_event::OutOfMemory;
use ira_links::OpenGate;
use std::alloc::{AllocError, Global};
use std::process::Abort;
use std::sync::Wait;
use std::thread::Threads;
use std::time::Clock;
use test_fixtures::{ELECTION, LEADER_AND_ACTIVE};

/// The numbers of a step, as they stand in its line.
type Step = [u32; 4];

/// Node 1's two states as an active node are ruled out by node 0's as a leader.
const SOUND: [Step; 2] = [[1, 1, 0, 4], [1, 2, 0, 4]];

/// The text of the certificate with these steps.
fn text_of(alloc: Global, [first, second]: &[Step; 2]) -> Result<String, AllocError> {
    let [a, b, c, d] = first;
    let [e, f, g, h] = second;
    format!(in alloc;
        "ircert 1\nnodes 2\nsection\ndrop {a} {b} by {c} {d}\ndrop {e} {f} by {g} {h}\nspent 1\nend\n"
    )
}

/// How many events of the other node are an event of this one or happened before it. Node 0 knows two events of node 1
/// from its third event on, and four from its fourth on; node 1 knows two from its third event on.
fn known(node: u32, event: u32) -> u32 {
    match (node, event) {
        (0, 0..3) | (1, 0..3) => 0,
        (0, 4..) => 4,
        _ => 2,
    }
}

/// Why a step isn't sound, where nodes 0 and 1 have these positions left.
fn unsound([node, pos, other, other_pos]: Step, left: [&[u32]; 2]) -> Option<Unsound> {
    let [of_0, of_1] = left;
    let (own, others) = if node == 0 {
        (of_0, of_1)
    } else {
        (of_1, of_0)
    };
    if node == other {
        return Some(Unsound::SameNode);
    }
    let (Some(first), Some(first_of_other)) = (own.first(), others.first()) else {
        return Some(Unsound::NodeSpent);
    };
    if *first != pos || *first_of_other != other_pos {
        return Some(Unsound::NotFront);
    }
    if pos < 4 && known(other, other_pos) > pos {
        None
    } else {
        Some(Unsound::NotBefore)
    }
}

/// After its first.
fn rest(positions: &'static [u32]) -> &'static [u32] {
    match positions.split_first() {
        Some((_, rest)) => rest,
        None => positions,
    }
}

/// The answer to the certificate with these steps, where node 0 leads in state 4 and node 1 is active in states 1 and
/// 2.
fn answer_to(steps: &[Step; 2]) -> Answer {
    let [first, second] = *steps;
    for (line, [node, _, other, _]) in [(4, first), (5, second)] {
        if node > 1 || other > 1 {
            return Answer::No(Reason::Certificate(CertFault::Range(line)));
        }
    }
    let (mut of_0, mut of_1): (&[u32], &[u32]) = (&[4], &[1, 2]);
    for (number, step) in [(0, first), (1, second)] {
        if let Some(why) = unsound(step, [of_0, of_1]) {
            let fault = SectionFault::Step(number, why);
            return Answer::No(Reason::Section { case: 0, fault });
        }
        let [node, _, _, _] = step;
        if node == 0 {
            of_0 = rest(of_0);
        } else {
            of_1 = rest(of_1);
        }
    }
    if of_1.is_empty() {
        return Answer::Yes;
    }
    let fault = SectionFault::NotSpent(1);
    Answer::No(Reason::Section { case: 0, fault })
}

/// Compares the answer to the certificate with these steps at two depths.
fn assert_answered<R>(rt: &R, steps: &[Step; 2])
where
    R: Abort + AllocGlobal + Threads + Wait + Clock + Sync,
{
    let text = text_of(rt.alloc(), steps).expect(rt, "memory");
    let answer = answer_to(steps);
    for depth in [0, 2] {
        let found: Result<Answer, OutOfMemory> = audit(
            rt,
            rt.alloc(),
            &ELECTION,
            LEADER_AND_ACTIVE,
            text.as_bytes(),
            depth,
            &OpenGate,
        );
        assert!(rt;
            found == Ok(answer),
            "{found:?} at depth {depth}: {steps:?}"
        );
    }
}

/// The sound steps with this number at this place of one of them.
fn substituted(step: usize, place: usize, number: u32) -> [Step; 2] {
    let mut steps = SOUND;
    if let Some(numbers) = steps.get_mut(step)
        && let Some(old) = numbers.get_mut(place)
    {
        *old = number;
    }
    steps
}

#[test]
fn each_number_of_two_steps(rt: HostRuntime) {
    assert!(rt; answer_to(&SOUND) == Answer::Yes);
    for step in 0..2 {
        for place in 0..4 {
            for number in 0..6 {
                assert_answered(&rt, &substituted(step, place, number));
            }
        }
    }
}
