ghost use Rattle.std.specs.Prelude.{◌≡◌, ◌<◌, All, IfOk, length};
ghost use Rattle.ira_pred.specs.Clause.{formula};
ghost use Rattle.ira_cert.specs.SharedTable.{AreCandidatesAt, IsTableOf};

use crate::asked_clause::asked_clauses;
use crate::positions::Positions;
use crate::searched_log::SearchedLog;
use crate::shared_table::{SharedTable, find_positions};
use ira_event::{Logs, NodeLog, OutOfMemory};
use ira_pred::{Case, Clause};
use std::alloc::Allocator;
use std::marker::Model;

/// The profiles of a ring's logs, place by place, and candidates that several of some cases ask for, found once: of
/// the first clauses that are asked, and no more positions together than the logs have. A log that none of these cases
/// asks has no profile, and is searched event by event should another case ask it.
#[derive(Drop)]
pub struct Profiles<'a, 'q, A: Allocator> {
    logs: Vec<SearchedLog<'a, A>, A>,
    shared: Vec<SharedTable<'q, A>, A>,
}

impl<'a, 'q, A: Allocator> Model for Profiles<'a, 'q, A> {
    ghost use Rattle.std.specs.Prelude.{All, List};
    ghost use Rattle.ira_event.specs.Log.{Log};
    ghost use Rattle.ira_cert.specs.SharedTable.{IsTableOf};

    ghost Value = { List Log };

    ghost view = { λ p. p.logs.items };

    ghost invariant = { λ p. All (IsTableOf p.logs.items) p.shared.items };
}

impl<'a, 'q, A: Allocator + Clone> Profiles<'a, 'q, A> {
    /// Those of the logs, for these cases.
    pub fn new(
        alloc: A,
        logs: &'a Logs<A>,
        cases: &'q [Case<A>],
    ) -> Result<Profiles<'a, 'q, A>, OutOfMemory>
        ensures { IfOk result (λ profiles. profiles ≡ logs.now) }
    {
        let room = position_count(logs);
        let logs = searched_logs(alloc.clone()?, logs, &asked_places(cases))?;
        let shared = shared_tables(alloc, &logs, cases, room)?;
        Ok(Profiles { logs, shared })
    }

    /// The candidates of the log at the place for the clause.
    pub fn positions(
        &self,
        alloc: A,
        place: u8,
        clause: &Clause<A>,
    ) -> Result<Positions<'_, A>, OutOfMemory>
        requires { place < length self.now }
        ensures { IfOk result (AreCandidatesAt self.now place (formula clause.now)) }
    {
        if let Some(positions) = find_positions(&self.shared, place, clause) {
            return Ok(Positions::shared(positions));
        }
        let log = &self.logs[usize::from(place)];
        Ok(Positions::own(log.table(alloc, clause)?))
    }
}

/// Place by place whether some case asks the node.
fn asked_places<A: Allocator>(cases: &[Case<A>]) -> [bool; 256] {
    let mut asked = [false; 256];
    for case in cases {
        for n in 0..case.len() {
            asked[usize::from(case.place(n))] = true;
        }
    }
    asked
}

/// The logs, those of the asked places with their profiles.
fn searched_logs<'a, A: Allocator + Clone>(
    alloc: A,
    logs: &'a Logs<A>,
    asked: &[bool; 256],
) -> Result<Vec<SearchedLog<'a, A>, A>, OutOfMemory>
    ensures { IfOk result (λ searched. searched.items ≡ logs.now) }
{
    let nodes = logs.size().get();
    let mut searched = Vec::with_capacity(alloc.clone()?, usize::from(nodes))?;
    for place in 0..nodes {
        searched.push(searched_log(alloc.clone()?, logs.log(place), asked[usize::from(place)])?)?;
    }
    Ok(searched)
}

/// The log, with its profile if it is asked.
fn searched_log<A: Allocator + Clone>(
    alloc: A,
    log: &NodeLog<A>,
    asked: bool,
) -> Result<SearchedLog<'_, A>, OutOfMemory>
    ensures { IfOk result (λ searched. searched ≡ log.now) }
{
    if asked {
        SearchedLog::profiled(alloc, log)
    } else {
        Ok(SearchedLog::whole(log))
    }
}

/// How many positions the logs have.
fn position_count<A: Allocator>(logs: &Logs<A>) -> usize {
    let mut count = 0usize;
    for place in 0..logs.size().get() {
        count = count
            .saturating_add(logs.log(place).len())
            .saturating_add(1);
    }
    count
}

/// The tables that several of the cases ask for, as far as they have no more positions than these.
fn shared_tables<'q, A: Allocator + Clone>(
    alloc: A,
    logs: &[SearchedLog<'_, A>],
    cases: &'q [Case<A>],
    mut room: usize,
) -> Result<Vec<SharedTable<'q, A>, A>, OutOfMemory>
    ensures { IfOk result (λ tables. All (IsTableOf logs.now) tables.items) }
{
    let mut tables = Vec::new(alloc.clone()?);
    for asked in &asked_clauses(alloc.clone()?, cases)? {
        let Some(log) = logs.get(usize::from(asked.place)) else {
            continue;
        };
        if !asked.several {
            continue;
        }
        let positions = log.table(alloc.clone()?, asked.clause)?;
        if positions.len() > room {
            break;
        }
        room -= positions.len();
        tables.push(SharedTable {
            place: asked.place,
            clause: asked.clause,
            positions,
        })?;
    }
    Ok(tables)
}
