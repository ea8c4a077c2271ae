ghost use Rattle.std.specs.Prelude.{◌≡◌, ◌↔◌, ◌⊎◌, Err, IfOk, IfErr, OnOk};
ghost use Rattle.ira_ring_setup.specs.declared.run_fault.RunFault.TheVariants.{Setup as SetupFault, OutOfMemory};
ghost use Rattle.ira_ring_setup.specs.Setup.{KeepsRules};
ghost use Rattle.ira_ring_setup.specs.ShownEnd.{IsLoneRun};
ghost use Rattle.ira_ring_setup.specs.Agreement.{AreOfEachFullRun};

use crate::lone_ring::LoneRing;
use ira_event::Logs;
use ira_ring_setup::{Run, RunFault, Setup};
use std::alloc::{AllocError, Allocator};

/// A full run of the setup on one thread, without links: always the least node that can step makes its
/// next event, until none can. Whichever node had stepped first, the logs would be the same. `Setup` where
/// the setup breaks the rules; nothing is taken before they were looked at. Time is linear in the records
/// and in the places that are passed on the way.
pub fn run_alone<A: Allocator + Clone>(alloc: A, setup: &Setup<A>) -> Result<Run<A>, RunFault>
    ensures rules { (result ≡ Err SetupFault) ↔ ¬ (KeepsRules setup.now) }
    ensures kept { OnOk result (KeepsRules setup.now) }
    ensures ok { IfOk result (IsLoneRun setup.now) }
    ensures only { IfOk result (λ run. AreOfEachFullRun setup.now run.logs) }
    ensures err { IfErr result (λ f. (f ≡ SetupFault) ⊎ (f ≡ OutOfMemory)) }
{
    if !setup.keeps_rules() {
        return Err(RunFault::Setup);
    }
    Ok(run_to_end(alloc, setup)?)
}

/// The run of a setup that keeps the rules.
pub(crate) fn run_to_end<A: Allocator + Clone>(
    alloc: A,
    setup: &Setup<A>,
) -> Result<Run<A>, AllocError>
    requires { KeepsRules setup.now }
    ensures { IfOk result (IsLoneRun setup.now) }
{
    let mut ring = LoneRing::start(alloc.clone()?, setup)?;
    ring.run()?;
    let ends = ring.ends(alloc.clone()?)?;
    let Ok(logs) = Logs::gather(ring.into_logs(alloc)?) else {
        unreachable!();
    };
    Ok(Run::of_parts(logs, ends))
}
