//! The positions of a log whose states pass a test.
ghost use Rattle.std.specs.Prelude.{is_none};
ghost use Rattle.std.specs.Iterator.{YieldsFirst, item_count};

use crate::samples::{free, log_of, owing};
use ira_cand::{Ahead, Holding, LocalTest, Profile, candidates, table};
use ira_event::{Event, Listed, NodeLog, OutOfMemory, RingSize, read_log};
use ira_node::{NodeState, Phase};
use ira_pred::{Clause, Rel};
use std::alloc::Global;
use std::process::Abort;
use test_fixtures::{ELECTION_0, ELECTION_1, SECOND_TERM, clean, loser};

/// How one goes on along the positions that are left.
#[derive(Clone, Copy)]
enum Going {
    Advance,
    SkipBelow(u32),
}

impl Going {
    /// The first position left after it.
    fn on<I: Iterator<Item = u32> + Listed>(self, ahead: &mut Ahead<I>) -> Option<u32> {
        match self {
            Going::Advance => ahead.advance(),
            Going::SkipBelow(position) => ahead.skip_below(position),
        }
        ahead.front()
    }
}

/// Compares the first position left, at first and after each way of going on.
fn assert_queues<I: Iterator<Item = u32> + Listed>(
    rt: &impl Abort,
    ahead: &mut Ahead<I>,
    first: u32,
    rows: &[(Going, Option<u32>)],
) {
    let at_first = ahead.front();
    assert!(rt; at_first == Some(first), "{at_first:?}");
    for (number, (going, front)) in rows.iter().enumerate() {
        let found = going.on(ahead);
        assert!(rt; found == *front, "{found:?} in row {number}");
    }
}

#[test]
fn candidates_of_active(rt: HostRuntime) {
    let log = log_of(&rt, 2, 1, true, &loser());
    let clause: Clause<Global> = Clause::Active;
    let rows = [
        (Going::SkipBelow(2), Some(2)),
        (Going::Advance, None),
        (Going::Advance, None),
    ];
    assert_queues(&rt, &mut candidates(&log, &clause), 1, &rows);
}

/// Whether the clause holds at these positions of the log, by the log itself.
fn is_table(alloc: Global, log: &NodeLog<Global>, clause: &Clause<Global>, wanted: &[u32]) -> bool {
    match table(alloc, log, clause) {
        Ok(positions) => positions.as_slice() == wanted,
        Err(_) => false,
    }
}

/// The same by its profile.
fn is_told(alloc: Global, log: &NodeLog<Global>, clause: &Clause<Global>, wanted: &[u32]) -> bool {
    match told_in_short(alloc, log, clause) {
        Ok(positions) => positions.as_slice() == wanted,
        Err(_) => false,
    }
}

/// Whether the clause holds at these positions of the text's log, by the log and by its profile.
fn holds_at(alloc: Global, text: &[u8], clause: Clause<Global>, wanted: &[u32]) -> (bool, bool) {
    match read_log(alloc, text) {
        Ok(log) => (
            is_table(alloc, &log, &clause, wanted),
            is_told(alloc, &log, &clause, wanted),
        ),
        Err(_) => (false, false),
    }
}

/// Compares at which positions of the text's log the clause holds.
fn assert_table(
    rt: &(impl Abort + AllocGlobal),
    text: &[u8],
    clause: Clause<Global>,
    positions: &[u32],
) {
    let found = holds_at(rt.alloc(), text, clause, positions);
    assert!(rt; found == (true, true), "{found:?} for {positions:?}");
}

#[test]
fn candidates_of_the_election(rt: HostRuntime) {
    assert_table(&rt, ELECTION_0, Clause::Leader, &[4]);
    assert_table(&rt, ELECTION_1, Clause::Active, &[1, 2]);
}

#[test]
fn second_term(rt: HostRuntime) {
    let [first, second] = SECOND_TERM;
    assert_table(&rt, first, Clause::Leader, &[4]);
    assert_table(&rt, second, Clause::Leader, &[10]);
    assert_table(&rt, first, Clause::Yielding, &[5, 6]);
    assert_table(
        &rt,
        first,
        Clause::Term(Rel::Greater, 1),
        &[7, 8, 9, 10, 11],
    );
    assert_table(&rt, second, Clause::Term(Rel::Less, 2), &[0, 1, 2, 3, 4]);
    assert_table(&rt, second, Clause::Choosing, &[0, 5, 6]);
}

/// The log of a passive node that passes 2,000 messages on: it owes one after each receipt.
fn long_log(alloc: Global) -> Option<NodeLog<Global>> {
    let passed_on = [Event::Got(clean(1, 1, 1)), Event::Sent(clean(1, 1, 2))];
    let events = passed_on.repeat(alloc, 2_000).ok()?;
    NodeLog::new(1, RingSize::new(2)?, 1, false, events)
}

/// The odd numbers below 4,000.
fn odd_positions(alloc: Global) -> Option<Vec<u32>> {
    let mut positions = Vec::new(alloc);
    for number in 0..2_000 {
        positions.push(2 * number + 1).ok()?;
    }
    Some(positions)
}

/// The positions at which the clause holds, by the log's profile.
fn told_in_short(
    alloc: Global,
    log: &NodeLog<Global>,
    clause: &Clause<Global>,
) -> Result<Vec<u32>, OutOfMemory> {
    let profile = Profile::new(alloc, log)?;
    profile.table(alloc, clause)
}

/// Whether the long log owes at the odd positions, by the log and by its profile.
fn owes_at_odd(alloc: Global) -> Option<(bool, bool)> {
    let log = long_log(alloc)?;
    let odd = odd_positions(alloc)?;
    let owes = Clause::Owes;
    Some((
        is_table(alloc, &log, &owes, &odd),
        is_told(alloc, &log, &owes, &odd),
    ))
}

#[test]
fn candidates_of_a_long_log(rt: HostRuntime) {
    assert!(rt; owes_at_odd(rt.alloc()) == Some((true, true)));
}

/// A test written by hand.
#[derive(Drop)]
struct OwesNothing;

impl LocalTest for OwesNothing {
    ghost holds = { λ _ s. is_none s.owed };

    fn holds(&self, state: &NodeState) -> bool {
        state.owed.is_none()
    }
}

/// A source written by hand.
#[derive(Drop)]
struct Shown<'a> {
    rest: &'a [(u32, NodeState)],
}

impl<'a> Iterator for Shown<'a> {
    type Item = (u32, NodeState);

    ghost next_gives = { YieldsFirst (λ s. s.rest.now) };

    ghost remaining = { item_count (λ s. s.rest.now) };

    fn next(&mut self) -> Option<(u32, NodeState)> {
        let (first, others) = self.rest.split_first()?;
        self.rest = others;
        Some(*first)
    }
}

impl<'a> Listed for Shown<'a> {
    ghost use Rattle.std.specs.Prelude.{refl};

    ghost left = { λ s. s.rest.now };

    ghost may_go_on = { λ s. tt };

    ghost gives_first = { λ s r t h. h };

    ghost ends = { λ s. refl };
}

#[test]
fn source_and_test_written_by_hand(rt: HostRuntime) {
    let none = free(Phase::Passive);
    let one = owing(Phase::Passive, clean(1, 1, 1));
    let states = [(0, none), (1, one), (2, none), (4, none)];
    let mut ahead = Ahead::new(Holding::new(Shown { rest: &states }, OwesNothing));
    let rows = [
        (Going::SkipBelow(1), Some(2)),
        (Going::SkipBelow(2), Some(2)),
        (Going::Advance, Some(4)),
        (Going::SkipBelow(5), None),
    ];
    assert_queues(&rt, &mut ahead, 0, &rows);
}
