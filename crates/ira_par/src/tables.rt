// The candidates of a case as lists, one for each node that it asks.
ghost use Rattle.std.specs.Prelude.{◌≡◌, ◌<◌, ℕ, List, Ok, Some, IfOk, OnOk, length, slice_get};
ghost use Rattle.ira_event.specs.Log.{Log};
ghost use Rattle.ira_pred.specs.Case.{Conjunct};
ghost use Rattle.ira_cert.specs.Conjuncts.{HasDifferentPlaces, HasPlacesOf};
ghost use Rattle.ira_cert.specs.Queues.{AreQueues};
ghost use Rattle.ira_par.specs.CandidateTable.{IsTableFor, AreTables, AreBelow};

use crate::candidate_table::CandidateTable;
use ira_cand::{Ahead, table};
use ira_cert::{ListedCandidates, Positions, Profiles};
use ira_event::{Logs, OutOfMemory};
use ira_pred::Case;
use std::alloc::Allocator;

/// The candidates of the case, found in the logs.
pub(crate) fn case_tables<'t, A: Allocator + Clone>(
    alloc: A,
    logs: &Logs<A>,
    case: &Case<A>,
) -> Result<Vec<CandidateTable<'t, A>, A>, OutOfMemory>
    requires places { HasPlacesOf logs.now case.now }
    ensures different { OnOk result (HasDifferentPlaces case.now) }
    ensures places { IfOk result (λ tables. AreBelow (length logs.now) tables.items) }
    ensures tables { IfOk result (λ tables. AreTables logs.now case.now tables.items) }
{
    find_all(
        alloc.clone()?,
        case,
        |n|
            requires { (n < length case.now) × HasPlacesOf logs.now case.now }
            ensures { IfOk result (IsTableFor logs.entry.now case.entry.now n) }
        {
            let place = case.place(n);
            let positions = table(alloc.clone()?, logs.log(place), case.clause(n))?;
            Ok(CandidateTable::new(place, Positions::own(positions)))
        },
    )
}

/// The candidates of the case, found in the profiles of the logs.
pub(crate) fn profiled_tables<'t, A: Allocator + Clone>(
    alloc: A,
    profiles: &'t Profiles<'_, '_, A>,
    case: &Case<A>,
) -> Result<Vec<CandidateTable<'t, A>, A>, OutOfMemory>
    requires places { HasPlacesOf profiles.now case.now }
    ensures different { OnOk result (HasDifferentPlaces case.now) }
    ensures places { IfOk result (λ tables. AreBelow (length profiles.now) tables.items) }
    ensures tables { IfOk result (λ tables. AreTables profiles.now case.now tables.items) }
{
    find_all(
        alloc.clone()?,
        case,
        |n|
            requires { (n < length case.now) × HasPlacesOf profiles.now case.now }
            ensures { IfOk result (IsTableFor profiles.entry.now case.entry.now n) }
        {
            let place = case.place(n);
            let positions = profiles.positions(alloc.clone()?, place, case.clause(n))?;
            Ok(CandidateTable::new(place, positions))
        },
    )
}

/// What is found for each clause of the case, by the clause's number.
fn find_all<T: Drop, F, A: Allocator>(
    alloc: A,
    case: &Case<A>,
    find: F,
) -> Result<Vec<T, A>, OutOfMemory>
where
    F: Fn(usize) -> Result<T, OutOfMemory>,
    requires { (n : ℕ) → n < length case.now → F.pre find n }
    ensures different { OnOk result (HasDifferentPlaces case.now) }
    ensures count { IfOk result (λ found. length found.items ≡ length case.now) }
    ensures each { IfOk result (λ found. (n : ℕ) (t : T) → slice_get found.items n ≡ Some t → F.post find n (Ok t)) }
{
    let count = case.len();
    let mut found = Vec::with_capacity(alloc, count)?;
    for n in 0..count {
        found.push(find(n)?)?;
    }
    Ok(found)
}

/// Puts the candidates of each table at its place, and nothing at others.
pub(crate) fn list_candidates<'t, A: Allocator>(
    tables: &'t [CandidateTable<'_, A>],
    queues: &mut [Option<Ahead<ListedCandidates<'t, A>>>],
)
    requires { AreBelow (length queues.old) tables.now }
    ensures { (logs : List Log) (case : List Conjunct) → AreTables logs case tables.now
        → AreQueues logs case queues.new }
{
    for place in 0..queues.len() {
        queues[place] = None;
    }
    for n in 0..tables.len() {
        let table = &tables[n];
        queues[usize::from(table.place())] = Some(table.queue());
    }
}
