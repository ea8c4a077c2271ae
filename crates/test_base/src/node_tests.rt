//! The node's automaton.

use crate::samples::{assert_shown, free, in_term, owing};
use ira_event::{Event, Load, RingSize};
use ira_node::{NodeState, Phase, StepFault, Wanted};
use std::process::Abort;
use test_fixtures::{clean, dirty};

const CHOOSING: Phase = Phase::Choosing { round: 2 };

const ACTIVE: Phase = Phase::Active { round: 2, id: 2 };

const PASSIVE: Phase = Phase::Passive;

const LEADER: Phase = Phase::Leader { round: 2, id: 2 };

const YIELDING: Phase = Phase::Yielding;

/// The reset of a node that yields.
const RESET: Load = Load::Reset(1);

#[test]
fn first_states(rt: HostRuntime) {
    let first = [NodeState::first(true), NodeState::first(false)];
    assert_eq!(rt;
        first,
        [free(Phase::Choosing { round: 1 }), free(Phase::Passive)]
    );
}

fn assert_wanted(rt: &impl Abort, state: NodeState, want: Wanted) {
    assert_eq!(rt; state.wanted(), want, "in {state:?}");
}

#[test]
fn wanted_by_phase_and_debt(rt: HostRuntime) {
    let debt = clean(1, 1, 1);
    for (state, want) in [
        (free(CHOOSING), Wanted::Draw),
        (free(ACTIVE), Wanted::Receipt),
        (free(Phase::Passive), Wanted::Receipt),
        (free(LEADER), Wanted::Yield),
        (free(YIELDING), Wanted::Receipt),
        (owing(CHOOSING, debt), Wanted::Send(debt)),
        (owing(ACTIVE, debt), Wanted::Send(debt)),
        (owing(Phase::Passive, debt), Wanted::Send(debt)),
        (owing(YIELDING, RESET), Wanted::Send(RESET)),
        (owing(LEADER, debt), Wanted::Yield),
    ] {
        assert_wanted(&rt, state, want);
    }
}

#[test]
fn wanted_in_the_last_terms(rt: HostRuntime) {
    for (term, phase, want) in [
        (999_999, LEADER, Wanted::Yield),
        (1_000_000, LEADER, Wanted::Nothing),
        (1_000_000, CHOOSING, Wanted::Draw),
        (1_000_000, PASSIVE, Wanted::Receipt),
        (1_000_000, YIELDING, Wanted::Receipt),
    ] {
        assert_wanted(&rt, in_term(term, free(phase)), want);
    }
}

/// Compares what the step gives in a ring of so many nodes.
fn assert_step(
    rt: &impl Abort,
    nodes: u8,
    state: NodeState,
    event: Event,
    want: Result<NodeState, StepFault>,
) {
    let nodes = RingSize::new(nodes).expect(rt, "a ring of that size");
    assert_eq!(rt; state.step(nodes, &event), want, "{event:?} in {state:?}");
}

/// The state after such a draw in round 2.
fn drew(id: u32) -> NodeState {
    owing(Phase::Active { round: 2, id }, clean(2, id, 1))
}

#[test]
fn draws_and_sendings(rt: HostRuntime) {
    let debt = dirty(9, 3, 2);
    for (state, event, want) in [
        (free(CHOOSING), Event::Draw(1), drew(1)),
        (free(CHOOSING), Event::Draw(3), drew(3)),
        (owing(CHOOSING, debt), Event::Sent(debt), free(CHOOSING)),
        (owing(ACTIVE, debt), Event::Sent(debt), free(ACTIVE)),
        (owing(PASSIVE, debt), Event::Sent(debt), free(PASSIVE)),
    ] {
        assert_step(&rt, 3, state, event, Ok(want));
    }
}

/// What a node passes on.
#[test]
fn messages_passed_on(rt: HostRuntime) {
    for (phase, received, want) in [
        (PASSIVE, clean(1, 1, 3), owing(PASSIVE, clean(1, 1, 4))),
        (PASSIVE, dirty(2, 5, 7), owing(PASSIVE, dirty(2, 5, 8))),
        (ACTIVE, clean(3, 1, 1), owing(PASSIVE, clean(3, 1, 2))),
        (ACTIVE, dirty(2, 3, 2), owing(PASSIVE, dirty(2, 3, 3))),
        (ACTIVE, clean(2, 2, 1), owing(ACTIVE, dirty(2, 2, 2))),
        (ACTIVE, dirty(2, 2, 2), owing(ACTIVE, dirty(2, 2, 3))),
    ] {
        assert_step(&rt, 3, free(phase), Event::Got(received), Ok(want));
    }
}

/// What an active node doesn't pass on.
#[test]
fn messages_kept(rt: HostRuntime) {
    for (received, want) in [
        (clean(1, 3, 1), ACTIVE),
        (dirty(2, 1, 3), ACTIVE),
        (clean(1, 1, 1_000_000), ACTIVE),
        (dirty(2, 2, 3), Phase::Choosing { round: 3 }),
        (clean(2, 2, 3), LEADER),
    ] {
        assert_step(&rt, 3, free(ACTIVE), Event::Got(received), Ok(free(want)));
    }
}

#[test]
fn checks_of_leaders_and_debts(rt: HostRuntime) {
    let debt = clean(2, 2, 1);
    for (state, event, want) in [
        (free(LEADER), Event::Draw(1), StepFault::Ended),
        (free(LEADER), Event::Sent(debt), StepFault::Ended),
        (free(LEADER), Event::Got(debt), StepFault::Ended),
        (owing(LEADER, debt), Event::Sent(debt), StepFault::Ended),
        (
            owing(ACTIVE, debt),
            Event::Sent(dirty(2, 2, 1)),
            StepFault::NotOwed,
        ),
        (owing(CHOOSING, debt), Event::Draw(0), StepFault::Owes),
        (owing(CHOOSING, debt), Event::Got(debt), StepFault::Owes),
        (owing(PASSIVE, debt), Event::Got(debt), StepFault::Owes),
    ] {
        assert_step(&rt, 3, state, event, Err(want));
    }
}

#[test]
fn checks_of_nodes_that_owe_nothing(rt: HostRuntime) {
    let message = clean(2, 2, 1);
    for (phase, event, want) in [
        (CHOOSING, Event::Sent(message), StepFault::NotOwed),
        (ACTIVE, Event::Sent(message), StepFault::NotOwed),
        (PASSIVE, Event::Sent(message), StepFault::NotOwed),
        (CHOOSING, Event::Got(message), StepFault::MustDraw),
        (CHOOSING, Event::Draw(0), StepFault::DrawRange),
        (CHOOSING, Event::Draw(4), StepFault::DrawRange),
        (ACTIVE, Event::Draw(1), StepFault::NotChoosing),
        (PASSIVE, Event::Draw(0), StepFault::NotChoosing),
        (
            PASSIVE,
            Event::Got(clean(1, 1, 1_000_000)),
            StepFault::HopLimit,
        ),
        (
            ACTIVE,
            Event::Got(clean(3, 1, 1_000_000)),
            StepFault::HopLimit,
        ),
        (ACTIVE, Event::Got(clean(2, 2, 4)), StepFault::HopPast),
        (
            ACTIVE,
            Event::Got(clean(2, 2, 1_000_000)),
            StepFault::HopPast,
        ),
    ] {
        assert_step(&rt, 3, free(phase), event, Err(want));
    }
}

#[test]
fn steps_at_the_limits(rt: HostRuntime) {
    let one = free(Phase::Active { round: 1, id: 1 });
    let last = free(Phase::Active {
        round: 1_000_000,
        id: 1,
    });
    let leader = free(Phase::Leader { round: 1, id: 1 });
    let again = free(Phase::Choosing { round: 2 });
    for (state, received, want) in [
        (one, clean(1, 1, 3), Err(StepFault::HopPast)),
        (one, clean(1, 1, 2), Ok(leader)),
        (one, dirty(1, 1, 2), Ok(again)),
        (one, clean(1, 2, 1_000_000), Err(StepFault::HopLimit)),
        (one, clean(1, 2, 4_294_967_295), Err(StepFault::HopLimit)),
        (last, dirty(1_000_000, 1, 2), Err(StepFault::RoundLimit)),
    ] {
        assert_step(&rt, 2, state, Event::Got(received), want);
    }
}

/// What yields and resets do in a ring of two.
#[test]
fn steps_of_terms(rt: HostRuntime) {
    let home = Load::Reset(2);
    let begun = in_term(2, free(Phase::Choosing { round: 1 }));
    let passing_on = in_term(2, owing(Phase::Choosing { round: 1 }, home));
    for (state, event, want) in [
        (free(LEADER), Event::Yield, owing(YIELDING, RESET)),
        (
            owing(LEADER, clean(2, 2, 1)),
            Event::Yield,
            owing(YIELDING, RESET),
        ),
        (owing(YIELDING, RESET), Event::Sent(RESET), free(YIELDING)),
        (free(PASSIVE), Event::Got(RESET), passing_on),
        (passing_on, Event::Sent(home), begun),
        (free(YIELDING), Event::Got(home), begun),
    ] {
        assert_step(&rt, 2, state, event, Ok(want));
    }
}

/// Yields and resets out of turn, in a ring of two.
#[test]
fn faults_of_terms(rt: HostRuntime) {
    let home = Load::Reset(2);
    for (phase, event, want) in [
        (PASSIVE, Event::Got(home), StepFault::WrongReset),
        (PASSIVE, Event::Got(Load::Reset(3)), StepFault::WrongReset),
        (PASSIVE, Event::Yield, StepFault::NotLeader),
        (PASSIVE, Event::Sent(RESET), StepFault::NotOwed),
        (ACTIVE, Event::Got(RESET), StepFault::WrongReset),
        (ACTIVE, Event::Got(home), StepFault::WrongReset),
        (ACTIVE, Event::Yield, StepFault::NotLeader),
        (CHOOSING, Event::Got(RESET), StepFault::MustDraw),
        (CHOOSING, Event::Yield, StepFault::NotLeader),
        (YIELDING, Event::Got(RESET), StepFault::WrongReset),
        (YIELDING, Event::Got(Load::Reset(3)), StepFault::WrongReset),
        (YIELDING, Event::Got(clean(1, 2, 2)), StepFault::NotReset),
        (YIELDING, Event::Draw(1), StepFault::NotChoosing),
        (YIELDING, Event::Sent(RESET), StepFault::NotOwed),
        (YIELDING, Event::Yield, StepFault::NotLeader),
        (LEADER, Event::Draw(1), StepFault::Ended),
        (LEADER, Event::Sent(RESET), StepFault::Ended),
        (LEADER, Event::Got(RESET), StepFault::Ended),
        (LEADER, Event::Got(home), StepFault::Ended),
    ] {
        assert_step(&rt, 2, free(phase), event, Err(want));
    }
}

#[test]
fn debts_of_resets(rt: HostRuntime) {
    let yielded = owing(YIELDING, RESET);
    for (state, event, want) in [
        (yielded, Event::Yield, StepFault::Owes),
        (
            owing(PASSIVE, clean(1, 1, 2)),
            Event::Yield,
            StepFault::Owes,
        ),
        (yielded, Event::Got(Load::Reset(2)), StepFault::Owes),
        (yielded, Event::Sent(Load::Reset(2)), StepFault::NotOwed),
        (yielded, Event::Sent(clean(1, 1, 1)), StepFault::NotOwed),
        (
            owing(PASSIVE, clean(1, 1, 1)),
            Event::Sent(RESET),
            StepFault::NotOwed,
        ),
    ] {
        assert_step(&rt, 2, state, event, Err(want));
    }
}

/// In the last term and in the one before, in a ring of two.
#[test]
fn last_terms(rt: HostRuntime) {
    let home = Load::Reset(2);
    let yielded = in_term(999_999, owing(YIELDING, RESET));
    let begun = in_term(1_000_000, free(Phase::Choosing { round: 1 }));
    for (term, phase, event, want) in [
        (999_999, LEADER, Event::Yield, Ok(yielded)),
        (999_999, YIELDING, Event::Got(home), Ok(begun)),
        (1_000_000, LEADER, Event::Yield, Err(StepFault::TermLimit)),
        (1_000_000, LEADER, Event::Draw(1), Err(StepFault::Ended)),
        (
            1_000_000,
            PASSIVE,
            Event::Got(RESET),
            Err(StepFault::TermLimit),
        ),
        (
            1_000_000,
            PASSIVE,
            Event::Got(home),
            Err(StepFault::WrongReset),
        ),
        (
            1_000_000,
            YIELDING,
            Event::Got(home),
            Err(StepFault::TermLimit),
        ),
        (
            1_000_000,
            YIELDING,
            Event::Got(RESET),
            Err(StepFault::WrongReset),
        ),
    ] {
        assert_step(&rt, 2, in_term(term, free(phase)), event, want);
    }
}

#[test]
fn words_of_faults(rt: HostRuntime) {
    for (fault, word) in [
        (StepFault::Owes, "owes"),
        (StepFault::NotOwed, "not owed"),
        (StepFault::NotChoosing, "not choosing"),
        (StepFault::DrawRange, "draw range"),
        (StepFault::MustDraw, "must draw"),
        (StepFault::Ended, "ended"),
        (StepFault::HopPast, "hop past"),
        (StepFault::RoundLimit, "round limit"),
        (StepFault::HopLimit, "hop limit"),
        (StepFault::NotLeader, "not leader"),
        (StepFault::WrongReset, "wrong reset"),
        (StepFault::NotReset, "not a reset"),
        (StepFault::TermLimit, "term limit"),
    ] {
        assert_shown(&rt, &fault, word);
    }
}
