use ira_event::OutOfMemory;
use ira_pred::{Case, Clause};
use std::alloc::Allocator;

/// How many clauses at places are looked at: room for two of each node of the largest ring.
const MAX_LOOKED_AT: usize = 512;

/// A clause that is asked of the node at a place.
#[derive(Drop)]
pub(crate) struct AskedClause<'q, A: Allocator> {
    pub(crate) place: u8,
    pub(crate) clause: &'q Clause<A>,
    /// Whether several cases ask it.
    pub(crate) several: bool,
}

/// The first clauses that the cases ask, each at its place once.
pub(crate) fn asked_clauses<'q, A: Allocator>(
    alloc: A,
    cases: &'q [Case<A>],
) -> Result<Vec<AskedClause<'q, A>, A>, OutOfMemory> {
    let mut asked = Vec::new(alloc);
    for case in cases {
        for n in 0..case.len() {
            note(&mut asked, case.place(n), case.clause(n))?;
        }
    }
    Ok(asked)
}

/// Notes that a case asks the clause at the place.
fn note<'q, A: Allocator>(
    asked: &mut Vec<AskedClause<'q, A>, A>,
    place: u8,
    clause: &'q Clause<A>,
) -> Result<(), OutOfMemory> {
    for k in 0..asked.len() {
        if asked[k].place == place && asked[k].clause.is_same_as(clause) {
            asked[k].several = true;
            return Ok(());
        }
    }
    if asked.len() < MAX_LOOKED_AT {
        asked.push(AskedClause {
            place,
            clause,
            several: false,
        })?;
    }
    Ok(())
}
