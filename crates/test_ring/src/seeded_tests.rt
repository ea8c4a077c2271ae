// The run on one thread of a ring that draws from a seed gives what `run_alone` gives of all the draws.
use ira_event::{NodeLog, RingSize};
use ira_ring::{RunFault, Setup, draw_lists, run_alone, run_alone_seeded};
use std::alloc::Global;
use std::process::Abort;

/// Whether both logs have the same events.
fn are_equal(log: &NodeLog<Global>, other: &NodeLog<Global>) -> bool {
    for (event, expected) in log.events().zip(other.events()) {
        if event != expected {
            return false;
        }
    }
    log.len() == other.len()
}

/// A ring of two whose nodes draw from the seed runs as it does with all draws made before.
fn assert_seeded(rt: &(impl Abort + AllocGlobal), seed: u64, k: u32) {
    let alloc = rt.alloc();
    let nodes = RingSize::new(2).expect(rt, "a ring of two");
    let both = [true, true];
    let setup = Setup {
        nodes,
        initiators: both.to_vec(alloc).expect(rt, "memory"),
        draws: draw_lists(alloc, nodes, seed, k).expect(rt, "memory"),
        cap: 1000,
        terms: 1,
    };
    let expected = run_alone(alloc, &setup).expect(rt, "a run");
    let run = run_alone_seeded(alloc, nodes, &both, seed, k, 1000, 1).expect(rt, "a run");
    let is_same = run.ends() == expected.ends()
        && are_equal(run.logs().log(0), expected.logs().log(0))
        && are_equal(run.logs().log(1), expected.logs().log(1));
    assert!(rt; is_same, "{k} draws of {seed}");
}

#[test]
fn draws_made_as_they_are_needed(rt: HostRuntime) {
    assert_seeded(&rt, 7, 64);
    // With this seed both nodes draw the same ID 19 times.
    for k in [0, 5, 17, 64] {
        assert_seeded(&rt, 333431, k);
    }
    let nodes = RingSize::new(2).expect(&rt, "a ring of two");
    let refused = run_alone_seeded(rt.alloc(), nodes, &[false, false], 7, 64, 1000, 1).err();
    assert!(rt; refused == Some(RunFault::Setup));
}
