ghost use Rattle.std.specs.Prelude.{All, IfSome, List};
ghost use Rattle.ira_event.specs.Log.{Log};
ghost use Rattle.ira_pred.specs.Clause.{formula};
ghost use Rattle.ira_cert.specs.SharedTable.{AreCandidatesAt, IsTableOf};

use ira_pred::Clause;
use std::alloc::Allocator;

/// The candidates of the node at a place for a clause, found once for all cases that ask for them.
#[derive(Drop)]
pub(crate) struct SharedTable<'q, A: Allocator> {
    pub(crate) place: u8,
    pub(crate) clause: &'q Clause<A>,
    pub(crate) positions: Vec<u32, A>,
}

/// The positions of the table of the place for the clause, if there is one.
pub(crate) fn find_positions<'t, A: Allocator>(
    tables: &'t [SharedTable<'_, A>],
    place: u8,
    clause: &Clause<A>,
) -> Option<&'t [u32]>
    ensures { (logs : List Log) → All (IsTableOf logs) tables.now
        → IfSome result (λ positions. AreCandidatesAt logs place (formula clause.now) positions.now) }
{
    for table in tables {
        if table.place == place && table.clause.is_same_as(clause) {
            return Some(&table.positions);
        }
    }
    None
}
