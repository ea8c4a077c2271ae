// What the gate of an audit sees: that all ranges of a section are judged at once, and that each passes it once.
ghost use Rattle.std.specs.Prelude.{◌≤◌};

use ira_audit::{Answer, Reason, audit};
use ira_cert::SectionFault;
use std::process::Abort;
use std::sync::Wait;
use std::thread::Threads;
use std::time::Clock;
use test_fixtures::{
    ELECTION, LEADER_AND_ACTIVE, LEADER_AND_OTHER, Meeting, Passes, TWO_SECTIONS, TWO_STEPS,
};

#[test]
fn sixteen_ranges_are_judged_at_once(rt: HostRuntime) {
    let gate = Meeting::new(16);
    let answer = audit(
        &rt,
        rt.alloc(),
        &ELECTION,
        LEADER_AND_ACTIVE,
        TWO_STEPS,
        4,
        &gate,
    );
    let seen = (answer, gate.missed());
    assert!(rt; seen == (Ok(Answer::Yes), 0), "{seen:?}");
}

/// Compares the answer and the passes, a digit for each range, where the question is judged at this depth.
fn assert_passed<R: Abort + AllocGlobal + Threads + Wait + Clock + Sync>(
    rt: &R,
    question: &[u8],
    certificate: &[u8],
    depth: u8,
    answer: Answer,
    passes: u64,
)
    requires { depth ≤ 4 }
{
    let gate = Passes::new();
    let found = audit(
        rt,
        rt.alloc(),
        &ELECTION,
        question,
        certificate,
        depth,
        &gate,
    );
    let seen = (found, gate.counts());
    assert!(rt; seen == (Ok(answer), passes), "{seen:?} at depth {depth}");
}

#[test]
fn each_range_of_each_section_passes_once(rt: HostRuntime) {
    for (depth, once, twice) in [
        (0, 0x1, 0x2),
        (1, 0x11, 0x22),
        (2, 0x1111, 0x2222),
        (3, 0x1111_1111, 0x2222_2222),
        (4, 0x1111_1111_1111_1111, 0x2222_2222_2222_2222),
    ] {
        let yes = Answer::Yes;
        assert_passed(&rt, LEADER_AND_ACTIVE, TWO_STEPS, depth, yes, once);
        assert_passed(&rt, LEADER_AND_OTHER, TWO_SECTIONS, depth, yes, twice);
    }
}

/// Where the first section isn't sound the one that is judged together with it is judged too. At depth 0 each is judged
/// alone.
#[test]
fn ranges_after_a_fault_pass_too(rt: HostRuntime) {
    let other = b"ircert 1\nnodes 2\nsection\nspent 0\nsection\nspent 1\nend\n";
    let fault = SectionFault::NotSpent(0);
    let no = Answer::No(Reason::Section { case: 0, fault });
    for (depth, passes) in [
        (0, 0x1),
        (1, 0x22),
        (2, 0x2222),
        (3, 0x2222_2222),
        (4, 0x2222_2222_2222_2222),
    ] {
        assert_passed(&rt, LEADER_AND_OTHER, other, depth, no, passes);
    }
}
