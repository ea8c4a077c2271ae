ghost use Rattle.std.specs.Prelude.{◌≡◌, IfOk};
ghost use Rattle.ira_pred.specs.Clause.{formula};
ghost use Rattle.ira_cand.specs.Candidates.{AreCandidates};
ghost use Rattle.ira_cand.specs.CandidatesFound.{candidates_of};

use crate::ahead::Ahead;
use crate::holding::Holding;
use ira_event::{Events, NodeLog, OutOfMemory};
use ira_pred::Clause;
use ira_replay::States;
use std::alloc::Allocator;

/// The candidates of a log for a clause: the positions at which the clause holds of the node's state,
/// where position 0 and the last one count too (Garg and Waldecker, Detection of Weak Unstable
/// Predicates in Distributed Programs, IEEE TPDS 5(3), 1994). They are found as they are asked for.
pub fn candidates<'a, 'b, A: Allocator>(
    log: &'a NodeLog<A>,
    clause: &'b Clause<A>,
) -> Ahead<Holding<States<Events<'a>>, &'b Clause<A>>>
    ensures value { result ≡ candidates_of log.now (formula clause.now) }
    ensures list { AreCandidates log.now (formula clause.now) result }
{
    Ahead::new(passing(log, clause))
}

/// The candidates of a log for a clause as a list, found in one pass.
pub fn table<A: Allocator>(
    alloc: A,
    log: &NodeLog<A>,
    clause: &Clause<A>,
) -> Result<Vec<u32, A>, OutOfMemory>
    ensures value { IfOk result (λ v. v.items ≡ candidates_of log.now (formula clause.now)) }
    ensures list { IfOk result (λ v. AreCandidates log.now (formula clause.now) v.items) }
{
    Ok(passing(log, clause).collect(alloc)?)
}

/// The positions of those of the log's states of which the clause holds.
fn passing<'a, 'b, A: Allocator>(
    log: &'a NodeLog<A>,
    clause: &'b Clause<A>,
) -> Holding<States<Events<'a>>, &'b Clause<A>>
    ensures { result ≡ candidates_of log.now (formula clause.now) }
{
    let states = States::new(log.nodes(), log.initiator(), log.events());
    Holding::new(states, clause)
}
