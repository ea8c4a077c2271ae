ghost use Rattle.std.specs.Prelude.{◌≡◌, [], IfOk};
ghost use Rattle.ira_cert.specs.Conjuncts.{HasPlacesOf};
ghost use Rattle.ira_elim.specs.Decided.{IsDecided};
ghost use Rattle.ira_elim.specs.Found.{IsFound};

use crate::decided::Decided;
use crate::elimination::decide_queues;
use crate::found::Found;
use crate::step_sink::StepSink;
use ira_cert::{Profiles, case_queues, profiled_queues};
use ira_event::{Logs, OutOfMemory};
use ira_order::{HappenedBefore, Ordered};
use ira_pred::Case;
use std::alloc::Allocator;

/// Decides whether a consistent cut of the logs meets the case, by eliminations (Garg and Waldecker,
/// Detection of Weak Unstable Predicates in Distributed Programs, IEEE TPDS 5(3), 1994). Absent comes with
/// a section that shows it, Present with the least of the consistent cuts that meet the case.
///
/// The least node without a candidate left is spent; as long as there is none, the least pair of nodes, by
/// `node` and then by `other`, whose first candidates left allow a step gives the next one.
pub fn decide<A: Allocator + Clone>(
    alloc: A,
    logs: &Logs<A>,
    ordered: &Ordered<'_, A>,
    case: &Case<A>,
) -> Result<Found<A>, OutOfMemory>
    requires order { ordered.now.logs ≡ logs.now }
    requires places { HasPlacesOf logs.now case.now }
    ensures { IfOk result (λ found. IsFound logs.now case.now found) }
{
    let queues = case_queues(alloc.clone()?, logs, case)?;
    let steps = Vec::new(alloc.clone()?);
    Ok(Found::of_decided(decide_queues(alloc, ordered, queues, steps)?))
}

/// Decides a case as `decide` does, with the profiles of the logs, place by place: for many cases of the same
/// logs no state is computed again. Of each node that the case asks it keeps a list of its candidates
/// meanwhile, unless the profiles share it.
pub fn decide_profiled<C: HappenedBefore, A: Allocator + Clone>(
    alloc: A,
    profiles: &Profiles<'_, '_, A>,
    ordered: &C,
    case: &Case<A>,
) -> Result<Found<A>, OutOfMemory>
    requires order { (C.logs_of ordered.now) ≡ profiles.now }
    requires places { HasPlacesOf profiles.now case.now }
    ensures { IfOk result (λ found. IsFound profiles.now case.now found) }
{
    let steps = Vec::new(alloc.clone()?);
    Ok(Found::of_decided(decide_into(alloc, profiles, ordered, case, steps)?))
}

/// Decides a case as `decide_profiled` does. The steps go where the caller says.
pub fn decide_into<C: HappenedBefore, A: Allocator + Clone, S: StepSink>(
    alloc: A,
    profiles: &Profiles<'_, '_, A>,
    ordered: &C,
    case: &Case<A>,
    steps: S,
) -> Result<Decided<S, A>, OutOfMemory>
    requires none { S.has_taken steps [] }
    requires order { (C.logs_of ordered.now) ≡ profiles.now }
    requires places { HasPlacesOf profiles.now case.now }
    ensures { IfOk result (λ decided. IsDecided S.has_taken profiles.now case.now decided) }
{
    let nodes = ordered.logs().size();
    let queues = profiled_queues(alloc.clone()?, nodes, profiles, case)?;
    decide_queues(alloc, ordered, queues, steps)
}
