// What the gate of the ranges sees: that all of them are judged at once, and that each passes it once.
ghost use Rattle.std.specs.Prelude.{◌≤◌};

use crate::verdicts::judge_split;
use ira_cert::{CertStep, SectionFault, Verdict};
use std::process::Abort;
use std::sync::Wait;
use std::thread::Threads;
use std::time::Clock;
use test_fixtures::{ELECTION, LEADER_AND_ACTIVE, Meeting, Passes, two_steps};

/// Compares that so many ranges meet where a sound section is judged at this depth.
fn assert_met<R: Abort + AllocGlobal + Threads + Wait + Clock + Sync>(
    rt: &R,
    depth: u8,
    ranges: u64,
)
    requires { depth ≤ 4 }
{
    let gate = Meeting::new(ranges);
    let found = judge_split(
        rt,
        &ELECTION,
        LEADER_AND_ACTIVE,
        &two_steps(),
        1,
        depth,
        &gate,
    );
    let seen = (found, gate.missed());
    assert!(rt; seen == (Verdict::Yes, 0), "{seen:?} at depth {depth}");
}

#[test]
fn ranges_are_judged_at_once(rt: HostRuntime) {
    for (depth, ranges) in [(1, 2), (2, 4), (3, 8), (4, 16)] {
        assert_met(&rt, depth, ranges);
    }
}

/// At each depth, that each range passes once: a digit for each.
const ONCE: [(u8, u64); 5] = [
    (0, 0x1),
    (1, 0x11),
    (2, 0x1111),
    (3, 0x1111_1111),
    (4, 0x1111_1111_1111_1111),
];

/// Compares the verdict and the passes where these steps are judged at this depth.
fn assert_passed<R: Abort + AllocGlobal + Threads + Wait + Clock + Sync>(
    rt: &R,
    steps: &[CertStep],
    depth: u8,
    verdict: Verdict,
    passes: u64,
)
    requires { depth ≤ 4 }
{
    let gate = Passes::new();
    let found = judge_split(rt, &ELECTION, LEADER_AND_ACTIVE, steps, 1, depth, &gate);
    let seen = (found, gate.counts());
    assert!(rt; seen == (verdict, passes), "{seen:?} at depth {depth}");
}

#[test]
fn each_range_passes_once(rt: HostRuntime) {
    let all = two_steps();
    let not_spent = Verdict::No(SectionFault::NotSpent(1));
    for (depth, passes) in ONCE {
        assert_passed(&rt, &[], depth, not_spent, passes);
        assert_passed(&rt, &all[..1], depth, not_spent, passes);
        assert_passed(&rt, &all, depth, Verdict::Yes, passes);
    }
}
