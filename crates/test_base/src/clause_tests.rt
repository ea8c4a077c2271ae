//! What clauses say of states.

use crate::question_samples::{ACTIVE, CHOOSING, LEADER};
use crate::samples::{free, in_term, owing};
use ira_event::Load;
use ira_node::{NodeState, Phase};
use ira_pred::{Clause, Rel};
use std::alloc::Global;
use std::process::Abort;
use test_fixtures::clean;

/// In which of the states the clause holds.
fn holds_in<const N: usize>(clause: Clause<Global>, states: [NodeState; N]) -> [bool; N] {
    let mut holds = [false; N];
    for i in 0..N {
        holds[i] = clause.holds(&states[i]);
    }
    holds
}

/// Compares in which phases the clause holds: of a node that chooses, is active, passive or the leader, or yields.
fn assert_phases(rt: &impl Abort, clause: Clause<Global>, wanted: [bool; 5]) {
    let states = [
        free(CHOOSING),
        free(ACTIVE),
        free(Phase::Passive),
        free(LEADER),
        free(Phase::Yielding),
    ];
    let found = holds_in(clause, states);
    assert!(rt; found == wanted, "{found:?}");
}

#[test]
fn clauses_of_one_fact(rt: HostRuntime) {
    let with_round = [true, true, false, true, false];
    let with_id = [false, true, false, true, false];
    let all = [true, true, true, true, true];
    let none = [false, false, false, false, false];
    assert_phases(&rt, Clause::Always, all);
    assert_phases(&rt, Clause::Leader, [false, false, false, true, false]);
    assert_phases(&rt, Clause::Active, [false, true, false, false, false]);
    assert_phases(&rt, Clause::Passive, [false, false, true, false, false]);
    assert_phases(&rt, Clause::Choosing, [true, false, false, false, false]);
    assert_phases(&rt, Clause::Yielding, [false, false, false, false, true]);
    assert_phases(&rt, Clause::Owes, none);
    assert_phases(&rt, Clause::Round(Rel::Less, 3), with_round);
    assert_phases(&rt, Clause::Round(Rel::Less, 2), none);
    assert_phases(&rt, Clause::Round(Rel::Equal, 2), with_round);
    assert_phases(&rt, Clause::Round(Rel::Greater, 1), with_round);
    assert_phases(&rt, Clause::Round(Rel::Greater, 2), none);
    assert_phases(&rt, Clause::Id(Rel::Less, 4), with_id);
    assert_phases(&rt, Clause::Id(Rel::Equal, 3), with_id);
    assert_phases(&rt, Clause::Id(Rel::Greater, 2), with_id);
    assert_phases(&rt, Clause::Id(Rel::Greater, 3), none);
    assert_phases(&rt, Clause::Term(Rel::Less, 2), all);
    assert_phases(&rt, Clause::Term(Rel::Less, 1), none);
    assert_phases(&rt, Clause::Term(Rel::Equal, 1), all);
    assert_phases(&rt, Clause::Term(Rel::Greater, 0), all);
    assert_phases(&rt, Clause::Term(Rel::Greater, 1), none);
}

#[test]
fn clauses_of_later_terms(rt: HostRuntime) {
    let states = [
        in_term(3, owing(Phase::Yielding, Load::Reset(1))),
        in_term(3, free(LEADER)),
    ];
    let found = [
        holds_in(Clause::Term(Rel::Equal, 3), states),
        holds_in(Clause::Term(Rel::Greater, 2), states),
        holds_in(Clause::Owes, states),
        holds_in(Clause::Round(Rel::Equal, 2), states),
    ];
    let wanted = [[true, true], [true, true], [true, false], [false, true]];
    assert!(rt; found == wanted, "{found:?}");
}

/// In which of the states a node doesn't have ID 1.
fn has_other_id(alloc: Global, states: [NodeState; 4]) -> Option<[bool; 4]> {
    let id_1 = Box::new(alloc, Clause::Id(Rel::Equal, 1)).ok()?;
    Some(holds_in(Clause::Negated(id_1), states))
}

/// In which of the states a node owes and is active.
fn owes_and_is_active(alloc: Global, states: [NodeState; 4]) -> Option<[bool; 4]> {
    let owes = Box::new(alloc, Clause::Owes).ok()?;
    let active = Box::new(alloc, Clause::Active).ok()?;
    Some(holds_in(Clause::Both(owes, active), states))
}

/// In which of the states a node owes or is active.
fn owes_or_is_active(alloc: Global, states: [NodeState; 4]) -> Option<[bool; 4]> {
    let owes = Box::new(alloc, Clause::Owes).ok()?;
    let active = Box::new(alloc, Clause::Active).ok()?;
    Some(holds_in(Clause::Either(owes, active), states))
}

#[test]
fn clauses_of_parts(rt: HostRuntime) {
    let states = [
        free(Phase::Passive),
        free(ACTIVE),
        owing(Phase::Passive, clean(2, 3, 1)),
        owing(ACTIVE, clean(2, 3, 1)),
    ];
    let found = [
        has_other_id(rt.alloc(), states),
        owes_and_is_active(rt.alloc(), states),
        owes_or_is_active(rt.alloc(), states),
    ];
    // a passive node has no ID, so that it isn't 1
    let wanted = [
        Some([true, true, true, true]),
        Some([false, false, false, true]),
        Some([false, true, true, true]),
    ];
    assert!(rt; found == wanted, "{found:?}");
}
