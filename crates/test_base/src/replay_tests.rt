//! The states along a log.
ghost use Rattle.std.specs.Iterator.{YieldsFirst, item_count};

use crate::samples::{assert_shown, free, owing};
use ira_event::{Event, Listed, NodeLog, RingSize, read_log};
use ira_node::{NodeState, Phase, StepFault};
use ira_replay::{ReplayFault, States, replay};
use std::alloc::Global;
use std::process::Abort;
use test_fixtures::{
    ELECTION_0, ELECTION_1, EQUAL_PAIR_PASSED_ON_CLEAN, LONE_INITIATOR, TIE, clean,
};

/// The last state of the log of this text, or its fault.
fn replayed(alloc: Global, text: &[u8]) -> Option<Result<NodeState, ReplayFault>> {
    let log = read_log(alloc, text).ok()?;
    Some(replay(&log))
}

/// Replays the log of this text, and compares its last state or its fault.
fn assert_replayed(
    rt: &(impl Abort + AllocGlobal),
    text: &[u8],
    want: Result<NodeState, ReplayFault>,
) {
    let found = replayed(rt.alloc(), text);
    assert!(rt; found == Some(want), "{found:?}");
}

/// What the iterator of a log's states gives at first.
fn first_states(log: &NodeLog<Global>) -> [Option<(u32, NodeState)>; 7] {
    let mut states = States::new(log.nodes(), log.initiator(), log.events());
    [
        states.next(),
        states.next(),
        states.next(),
        states.next(),
        states.next(),
        states.next(),
        states.next(),
    ]
}

#[test]
fn two_node_election(rt: HostRuntime) {
    let log = read_log(rt.alloc(), ELECTION_0).expect(&rt, "a log");
    let active = Phase::Active { round: 1, id: 2 };
    let leader = free(Phase::Leader { round: 1, id: 2 });
    let wanted = [
        Some((0, free(Phase::Choosing { round: 1 }))),
        Some((1, owing(active, clean(1, 2, 1)))),
        Some((2, free(active))),
        Some((3, free(active))),
        Some((4, leader)),
        None,
        None,
    ];
    assert!(rt; first_states(&log) == wanted);
    assert_replayed(&rt, ELECTION_0, Ok(leader));
    assert_replayed(&rt, ELECTION_1, Ok(free(Phase::Passive)));
}

#[test]
fn tie_then_win(rt: HostRuntime) {
    let leader = free(Phase::Leader { round: 2, id: 2 });
    assert_replayed(&rt, TIE[0], Ok(leader));
    assert_replayed(&rt, TIE[1], Ok(free(Phase::Passive)));
}

#[test]
fn lone_initiator(rt: HostRuntime) {
    let leader = free(Phase::Leader { round: 1, id: 1 });
    assert_replayed(&rt, LONE_INITIATOR[0], Ok(leader));
    for text in [LONE_INITIATOR[1], LONE_INITIATOR[2]] {
        assert_replayed(&rt, text, Ok(free(Phase::Passive)));
    }
}

#[test]
fn draw_out_of_range(rt: HostRuntime) {
    let fault = ReplayFault {
        position: 1,
        fault: StepFault::DrawRange,
    };
    let drew_three = b"irlog 1\nnodes 2\nplace 0\nstart initiator\ndraw 3\nend 1\n";
    assert_replayed(&rt, drew_three, Err(fault));
    assert_shown(&rt, &fault, "event 1: draw range");
    let drew_two = b"irlog 1\nnodes 2\nplace 0\nstart initiator\ndraw 2\nend 1\n";
    let state = owing(Phase::Active { round: 1, id: 2 }, clean(1, 2, 1));
    assert_replayed(&rt, drew_two, Ok(state));
}

#[test]
fn equal_pair_passed_on_clean(rt: HostRuntime) {
    let fault = ReplayFault {
        position: 4,
        fault: StepFault::NotOwed,
    };
    assert_replayed(&rt, EQUAL_PAIR_PASSED_ON_CLEAN[0], Err(fault));
}

/// A source that is no log's.
#[derive(Drop)]
struct Shown<'a> {
    rest: &'a [Event],
}

impl<'a> Iterator for Shown<'a> {
    type Item = Event;

    ghost next_gives = { YieldsFirst (λ s. s.rest.now) };

    ghost remaining = { item_count (λ s. s.rest.now) };

    fn next(&mut self) -> Option<Event> {
        let (first, others) = self.rest.split_first()?;
        self.rest = others;
        Some(*first)
    }
}

impl<'a> Listed for Shown<'a> {
    ghost use Rattle.std.specs.Prelude.{refl};

    ghost left = { λ s. s.rest.now };

    ghost may_go_on = { λ s. tt };

    ghost gives_first = { λ s r t h. h };

    ghost ends = { λ s. refl };
}

#[test]
fn states_end_before_a_fault(rt: HostRuntime) {
    let nodes = RingSize::new(3).expect(&rt, "a ring of three");
    let received = clean(1, 1, 1);
    let source = Shown {
        rest: &[
            Event::Got(received),
            Event::Got(received),
            Event::Sent(clean(1, 1, 2)),
        ],
    };
    let debtor = owing(Phase::Passive, clean(1, 1, 2));
    let mut states = States::new(nodes, false, source);
    let found = [states.next(), states.next(), states.next(), states.next()];
    let first = (0, free(Phase::Passive));
    assert!(rt; found == [Some(first), Some((1, debtor)), None, None]);
}
