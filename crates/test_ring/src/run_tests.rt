// What both runners give of the same setup: the same logs, and each its own ends.
use crate::samples::{assert_run, clean, setup_of};
use ira_event::{Event, Load, RingSize};
use ira_links::OpenGate;
use ira_ring::{NodeEnd, RunFault, Setup, draw_lists, run_alone, run_ring};
use std::alloc::Global;
use std::process::Abort;
use std::sync::Wait;
use std::thread::Threads;
use std::time::Clock;
use test_fixtures::{dirty, loser, winner};

fn assert_runs<R: Abort + AllocGlobal + Threads + Wait + Clock + Sync>(
    rt: &R,
    setup: &Setup<Global>,
    logs: &[&[Event]],
    ends_alone: &[NodeEnd],
    ends_in_ring: &[NodeEnd],
) {
    let alone = run_alone(rt.alloc(), setup).expect(rt, "a run on one thread");
    assert_run(rt, &alone, logs, ends_alone);
    let in_ring = run_ring(rt, rt.alloc(), setup, &OpenGate).expect(rt, "a run");
    assert_run(rt, &in_ring, logs, ends_in_ring);
}

#[test]
fn two_node_election(rt: HostRuntime) {
    let setup = setup_of(&rt, 2, &[true, true], &[&[2], &[1]], 100);
    assert_runs(
        &rt,
        &setup,
        &[&winner(), &loser()],
        &[NodeEnd::Leader, NodeEnd::Quiet],
        &[NodeEnd::Leader, NodeEnd::Stopped],
    );
}

#[test]
fn tie_then_win(rt: HostRuntime) {
    let setup = setup_of(&rt, 2, &[true, true], &[&[1, 2], &[1, 1]], 100);
    assert_runs(
        &rt,
        &setup,
        &[
            &[
                Event::Draw(1),
                Event::Sent(clean(1, 1, 1)),
                Event::Got(clean(1, 1, 1)),
                Event::Sent(dirty(1, 1, 2)),
                Event::Got(dirty(1, 1, 2)),
                Event::Draw(2),
                Event::Sent(clean(2, 2, 1)),
                Event::Got(clean(2, 1, 1)),
                Event::Got(clean(2, 2, 2)),
            ],
            &[
                Event::Draw(1),
                Event::Sent(clean(1, 1, 1)),
                Event::Got(clean(1, 1, 1)),
                Event::Sent(dirty(1, 1, 2)),
                Event::Got(dirty(1, 1, 2)),
                Event::Draw(1),
                Event::Sent(clean(2, 1, 1)),
                Event::Got(clean(2, 2, 1)),
                Event::Sent(clean(2, 2, 2)),
            ],
        ],
        &[NodeEnd::Leader, NodeEnd::Quiet],
        &[NodeEnd::Leader, NodeEnd::Stopped],
    );
}

#[test]
fn lone_initiator(rt: HostRuntime) {
    let setup = setup_of(&rt, 3, &[true, false, false], &[&[1], &[], &[]], 100);
    assert_runs(
        &rt,
        &setup,
        &[
            &[
                Event::Draw(1),
                Event::Sent(clean(1, 1, 1)),
                Event::Got(clean(1, 1, 3)),
            ],
            &[Event::Got(clean(1, 1, 1)), Event::Sent(clean(1, 1, 2))],
            &[Event::Got(clean(1, 1, 2)), Event::Sent(clean(1, 1, 3))],
        ],
        &[NodeEnd::Leader, NodeEnd::Quiet, NodeEnd::Quiet],
        &[NodeEnd::Leader, NodeEnd::Stopped, NodeEnd::Stopped],
    );
}

/// The events of a node of a ring of two in which both nodes draw 1.
fn tied() -> [Event; 5] {
    [
        Event::Draw(1),
        Event::Sent(clean(1, 1, 1)),
        Event::Got(clean(1, 1, 1)),
        Event::Sent(dirty(1, 1, 2)),
        Event::Got(dirty(1, 1, 2)),
    ]
}

#[test]
fn draws_spent_on_both(rt: HostRuntime) {
    let setup = setup_of(&rt, 2, &[true, true], &[&[1], &[1]], 100);
    let spent = [NodeEnd::DrawsSpent, NodeEnd::DrawsSpent];
    assert_runs(&rt, &setup, &[&tied(), &tied()], &spent, &spent);
}

/// Compares that neither runner takes this setup of a ring of two.
fn assert_refused<R: Abort + AllocGlobal + Threads + Wait + Clock + Sync>(
    rt: &R,
    initiators: &[bool],
    first: u32,
    cap: usize,
) {
    let setup = setup_of(rt, 2, initiators, &[&[first], &[1]], cap);
    let refused = [
        run_alone(rt.alloc(), &setup).err(),
        run_ring(rt, rt.alloc(), &setup, &OpenGate).err(),
    ];
    assert_eq!(rt; refused, [Some(RunFault::Setup), Some(RunFault::Setup)]);
}

#[test]
fn full_logs_and_bad_setups(rt: HostRuntime) {
    let setup = setup_of(&rt, 2, &[true, true], &[&[2], &[1]], 3);
    let full = [NodeEnd::LogFull, NodeEnd::LogFull];
    let logs = [&winner()[..3], &loser()[..3]];
    assert_runs(&rt, &setup, &logs, &full, &full);
    assert_refused(&rt, &[false, false], 2, 100);
    assert_refused(&rt, &[true, true], 2, 0);
    assert_refused(&rt, &[true, true], 3, 100);
}

#[test]
fn waiting_for_a_spent_node(rt: HostRuntime) {
    let setup = setup_of(&rt, 2, &[true, true], &[&[1], &[1, 1]], 100);
    let [drawn, sent, met, passed, back] = tied();
    let again = [
        drawn,
        sent,
        met,
        passed,
        back,
        Event::Draw(1),
        Event::Sent(clean(2, 1, 1)),
    ];
    assert_runs(
        &rt,
        &setup,
        &[&tied(), &again],
        &[NodeEnd::DrawsSpent, NodeEnd::Quiet],
        &[NodeEnd::DrawsSpent, NodeEnd::Stopped],
    );
}

#[test]
fn leader_beside_a_full_log(rt: HostRuntime) {
    let setup = setup_of(&rt, 2, &[true, true], &[&[2], &[1]], 4);
    let ends = [NodeEnd::Leader, NodeEnd::LogFull];
    assert_runs(&rt, &setup, &[&winner(), &loser()], &ends, &ends);
}

#[test]
fn second_term(rt: HostRuntime) {
    let mut setup = setup_of(&rt, 2, &[true, true], &[&[2, 1], &[1, 2]], 100);
    setup.terms = 2;
    let [drew_2, sent, got_1, won] = winner();
    let [drew_1, sent_1, got_2, passed_on] = loser();
    assert_runs(
        &rt,
        &setup,
        &[
            &[
                drew_2,
                sent,
                got_1,
                won,
                Event::Yield,
                Event::Sent(Load::Reset(1)),
                Event::Got(Load::Reset(2)),
                drew_1,
                sent_1,
                got_2,
                passed_on,
            ],
            &[
                drew_1,
                sent_1,
                got_2,
                passed_on,
                Event::Got(Load::Reset(1)),
                Event::Sent(Load::Reset(2)),
                drew_2,
                sent,
                got_1,
                won,
            ],
        ],
        &[NodeEnd::Quiet, NodeEnd::Leader],
        &[NodeEnd::Stopped, NodeEnd::Leader],
    );
}

#[test]
fn full_log_of_a_leader_below_the_last_term(rt: HostRuntime) {
    let mut setup = setup_of(&rt, 2, &[true, true], &[&[2, 1], &[1, 2]], 4);
    setup.terms = 2;
    let full = [NodeEnd::LogFull, NodeEnd::LogFull];
    assert_runs(&rt, &setup, &[&winner(), &loser()], &full, &full);
}

/// The version of the last log of a run of one term of so many nodes on one thread.
fn version_alone(rt: &(impl Abort + AllocGlobal), nodes: u8) -> u8 {
    let size = RingSize::new(nodes).expect(rt, "a ring of that size");
    let setup = Setup {
        nodes: size,
        initiators: vec![in rt.alloc(); true; usize::from(nodes)].expect(rt, "memory"),
        draws: draw_lists(rt.alloc(), size, 7, 64).expect(rt, "memory"),
        cap: 1000,
        terms: 1,
    };
    let run = run_alone(rt.alloc(), &setup).expect(rt, "a run");
    let logs = run.logs();
    logs.log(logs.size().get() - 1).version()
}

#[test]
fn versions_by_the_size_of_the_ring(rt: HostRuntime) {
    let versions = [version_alone(&rt, 64), version_alone(&rt, 65)];
    assert_eq!(rt; versions, [1, 2]);
}
