use crate::samples::clean;
use ira_event::{Event, MemorySink, NodeLog, RingSize};
use ira_ring::{Collector, NodeEnd, NodePart, RunFault, draw_lists, write_ends};
use std::alloc::Global;
use std::process::Abort;
use test_fixtures::{loser, winner};

fn ring(rt: &impl Abort, nodes: u8) -> RingSize {
    RingSize::new(nodes).expect(rt, "a ring of that size")
}

/// The part that is handed in for a place, with the log of a node of a ring.
fn part_of(
    rt: &(impl Abort + AllocGlobal),
    place: u8,
    nodes: u8,
    log_place: u8,
    events: &[Event],
    end: NodeEnd,
) -> NodePart<Global> {
    let events = events.to_vec(rt.alloc()).expect(rt, "memory");
    let log = NodeLog::new(1, ring(rt, nodes), log_place, true, events).expect(rt, "a log");
    NodePart { place, log, end }
}

/// The part of a node of a ring of two, which recorded nothing.
fn empty_part(rt: &(impl Abort + AllocGlobal), place: u8, end: NodeEnd) -> NodePart<Global> {
    part_of(rt, place, 2, place, &[], end)
}

fn assert_draws(
    rt: &(impl Abort + AllocGlobal),
    nodes: u8,
    seed: u64,
    k: u32,
    expected: &[&[u32]],
) {
    let lists = draw_lists(rt.alloc(), ring(rt, nodes), seed, k).expect(rt, "memory");
    let mut are_equal = lists.len() == expected.len();
    for (list, want) in lists.iter().zip(expected) {
        are_equal = are_equal && list.as_slice() == *want;
    }
    assert!(rt; are_equal, "{k} draws of {seed}");
}

#[test]
fn draws_of_seeds(rt: HostRuntime) {
    // The first word of the generator's reference program, whose state is 42 and stream 54, is
    // 0xa15c02b7.
    let lists = draw_lists(rt.alloc(), ring(&rt, 64), 42, 1).expect(&rt, "memory");
    let list = lists.get(54).map(|list| list.as_slice());
    assert!(rt; lists.len() == 64 && list == Some([56].as_slice()));
    assert_draws(
        &rt,
        5,
        7,
        4,
        &[
            &[5, 3, 1, 3],
            &[1, 2, 3, 2],
            &[3, 4, 1, 2],
            &[2, 4, 3, 1],
            &[3, 3, 4, 2],
        ],
    );
    assert_draws(
        &rt,
        3,
        u64::MAX,
        6,
        &[
            &[1, 2, 2, 2, 1, 1],
            &[2, 3, 2, 1, 2, 1],
            &[2, 1, 1, 1, 2, 1],
        ],
    );
    assert_draws(&rt, 2, 7, 0, &[&[], &[]]);
}

/// A collector of a ring of two.
fn collector(rt: &(impl Abort + AllocGlobal)) -> Collector<Global> {
    Collector::new(rt.alloc(), ring(rt, 2)).expect(rt, "memory")
}

/// A collector refuses parts of no place, of another ring and of another place.
fn assert_strangers(rt: &(impl Abort + AllocGlobal), collector: &mut Collector<Global>) {
    for (place, nodes, log_place) in [(5, 2, 0), (0, 3, 0), (0, 2, 1)] {
        let part = part_of(rt, place, nodes, log_place, &[], NodeEnd::Leader);
        let answer = collector.take(part);
        assert!(rt; answer == Err(RunFault::Stranger));
    }
}

fn assert_taken(
    rt: &(impl Abort + AllocGlobal),
    collector: &mut Collector<Global>,
    place: u8,
    end: NodeEnd,
    answer: Result<(), RunFault>,
) {
    let found = collector.take(empty_part(rt, place, end));
    assert!(rt; found == answer);
}

#[test]
fn collector_refusals(rt: HostRuntime) {
    let mut part_missing = collector(&rt);
    assert_strangers(&rt, &mut part_missing);
    assert_taken(&rt, &mut part_missing, 0, NodeEnd::Leader, Ok(()));
    let double = Err(RunFault::Double);
    assert_taken(&rt, &mut part_missing, 0, NodeEnd::Quiet, double);
    // A stranger is named so even where its place has a part.
    assert_strangers(&rt, &mut part_missing);
    let mut leader_missing = collector(&rt);
    assert_taken(&rt, &mut leader_missing, 0, NodeEnd::Stopped, Ok(()));
    assert_taken(&rt, &mut leader_missing, 1, NodeEnd::Stopped, Ok(()));
    let faults = [part_missing.finish().err(), leader_missing.finish().err()];
    assert!(rt; faults == [Some(RunFault::NoEnd), Some(RunFault::NoEnd)]);
}

/// Compares the text of the ends of a ring of two with these parts, taken in their order.
fn assert_ends_text(
    rt: &(impl Abort + AllocGlobal),
    first: NodePart<Global>,
    second: NodePart<Global>,
    text: &[u8],
) {
    let mut collector = collector(rt);
    let taken = [collector.take(first), collector.take(second)];
    let run = collector.finish().expect(rt, "a run");
    let mut sink = MemorySink::new(rt.alloc());
    let is_written = write_ends(&run, &mut sink).is_ok();
    assert!(rt; taken == [Ok(()), Ok(())] && is_written && sink.bytes() == text);
}

#[test]
fn two_node_election(rt: HostRuntime) {
    // The parts may come in any order.
    assert_ends_text(
        &rt,
        part_of(&rt, 1, 2, 1, &loser(), NodeEnd::Stopped),
        part_of(&rt, 0, 2, 0, &winner(), NodeEnd::Leader),
        b"node 0: leader, 4 events\nnode 1: stopped, 4 events\n",
    );
}

#[test]
fn words_of_the_ends(rt: HostRuntime) {
    assert_ends_text(
        &rt,
        part_of(&rt, 0, 2, 0, &[Event::Draw(1)], NodeEnd::LogFull),
        empty_part(&rt, 1, NodeEnd::NoStep(clean(1, 1, 1))),
        b"node 0: log full, 1 events\nnode 1: no step, 0 events\n",
    );
    assert_ends_text(
        &rt,
        empty_part(&rt, 0, NodeEnd::DrawsSpent),
        empty_part(&rt, 1, NodeEnd::Quiet),
        b"node 0: draws spent, 0 events\nnode 1: quiet, 0 events\n",
    );
}

#[test]
fn numbers_of_the_faults(rt: HostRuntime) {
    let numbers = [
        RunFault::Setup.number(),
        RunFault::OutOfMemory.number(),
        RunFault::Thread.number(),
        RunFault::NoEnd.number(),
        RunFault::Stranger.number(),
        RunFault::Double.number(),
        RunFault::Closed.number(),
    ];
    assert_eq!(rt; numbers, [1, 2, 3, 4, 5, 6, 7]);
}
