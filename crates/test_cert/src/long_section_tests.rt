// A section of so many steps that they are counted on threads too.
ghost use Rattle.std.specs.Prelude.{◌≤◌};

use crate::verdicts::judge_split;
use ira_cert::{CertStep, SectionFault, Unsound, Verdict};
use std::alloc::{AllocError, Global};
use std::process::Abort;
use std::sync::Wait;
use std::thread::Threads;
use std::time::Clock;
use test_fixtures::{LEADER_AND_UNBEATEN, Passes, step};

/// In so many rounds both nodes draw 1, each with five events.
const TIES: u32 = 1_700;

/// The states of node 1 before the one in which it gives way: those of the ties, and three of the last round.
const UNBEATEN: u32 = 5 * TIES + 3;

/// The text of a node's log: the ties, and then a round of four events.
fn tie_text(alloc: Global, place: u8, last: &str) -> Result<String, AllocError> {
    let mut text = format!(in alloc; "irlog 1\nnodes 2\nplace {place}\nstart initiator\n")?;
    for round in 1..=TIES {
        let tie = format!(in alloc;
            "draw 1\nsend {round} 1 1 clean\nrecv {round} 1 1 clean\n\
             send {round} 1 2 dirty\nrecv {round} 1 2 dirty\n"
        )?;
        text.push_str(&tie)?;
    }
    text.push_str(last)?;
    text.push_str("end 8504\n")?;
    Ok(text)
}

/// The logs of two nodes of which node 0 wins in the last round.
fn long_tie(alloc: Global) -> Result<[String; 2], AllocError> {
    let winner = "draw 2\nsend 1701 2 1 clean\nrecv 1701 1 1 clean\nrecv 1701 2 2 clean\n";
    let loser = "draw 1\nsend 1701 1 1 clean\nrecv 1701 2 1 clean\nsend 1701 2 2 clean\n";
    Ok([tie_text(alloc, 0, winner)?, tie_text(alloc, 1, loser)?])
}

/// The steps by which node 0, once it leads, rules out the states of node 1 before it gives way.
fn steps(alloc: Global) -> Result<Vec<CertStep>, AllocError> {
    let mut steps = Vec::new(alloc);
    for position in 0..UNBEATEN {
        steps.push(step(1, position, 0, 8_504))?;
    }
    Ok(steps)
}

/// Compares the verdict on these steps and the passes, a digit for each range.
fn assert_passed<R: Abort + AllocGlobal + Threads + Wait + Clock + Sync>(
    rt: &R,
    texts: &[&[u8]],
    steps: &[CertStep],
    depth: u8,
    verdict: Verdict,
    passes: u64,
)
    requires { depth ≤ 4 }
{
    let gate = Passes::new();
    let found = judge_split(rt, texts, LEADER_AND_UNBEATEN, steps, 1, depth, &gate);
    let seen = (found, gate.counts());
    assert!(rt; seen == (verdict, passes), "{seen:?} at depth {depth}");
}

#[test]
fn steps_counted_on_threads(rt: HostRuntime) {
    let [first, second] = long_tie(rt.alloc()).expect(&rt, "memory");
    let texts = [first.as_bytes(), second.as_bytes()];
    let mut steps = steps(rt.alloc()).expect(&rt, "memory");
    for (depth, passes) in [(0, 0x1), (1, 0x11), (3, 0x1111_1111)] {
        assert_passed(&rt, &texts, &steps, depth, Verdict::Yes, passes);
    }
    // What the last range has first is known by the counts of those before.
    if let Some(last) = steps.last_mut() {
        last.pos = 0;
    }
    let not_front = Verdict::No(SectionFault::Step(8_502, Unsound::NotFront));
    assert_passed(&rt, &texts, &steps, 2, not_front, 0x1111);
}
