ghost use Rattle.std.specs.Prelude.{◌≡◌, ◌<◌, IfOk, OnOk, length};
ghost use Rattle.ira_cert.specs.Conjuncts.{HasDifferentPlaces, HasPlacesOf};
ghost use Rattle.ira_cert.specs.Queues.{AreQueues, AreCandidatesFor};

use crate::conjuncts::map_conjuncts;
use crate::listed_candidates::ListedCandidates;
use crate::profiles::Profiles;
use ira_cand::Ahead;
use ira_event::{OutOfMemory, RingSize};
use ira_pred::Case;
use std::alloc::Allocator;

/// The candidates of the case, place by place, found in the profiles of the logs: of each node that it asks
/// a list of them, of others none.
pub fn profiled_queues<'t, A: Allocator + Clone>(
    alloc: A,
    nodes: RingSize,
    profiles: &'t Profiles<'_, '_, A>,
    case: &Case<A>,
) -> Result<Vec<Option<Ahead<ListedCandidates<'t, A>>>, A>, OutOfMemory>
    requires nodes { length profiles.now ≡ nodes }
    requires places { HasPlacesOf profiles.now case.now }
    ensures different { OnOk result (HasDifferentPlaces case.now) }
    ensures count { IfOk result (λ queues. length queues.items ≡ length profiles.now) }
    ensures queues { IfOk result (λ queues. AreQueues profiles.now case.now queues.items) }
{
    map_conjuncts(
        alloc.clone()?,
        nodes,
        case,
        |n|
            requires { (n < length case.now) × HasPlacesOf profiles.now case.now }
            ensures { IfOk result
                (λ positions. AreCandidatesFor profiles.entry.now case.entry.now n positions) }
        {
            let (place, clause) = (case.place(n), case.clause(n));
            let positions = profiles.positions(alloc.clone()?, place, clause)?;
            Ok(Ahead::new(ListedCandidates::new(positions)))
        },
    )
}
