ghost use Rattle.std.specs.Prelude.{◌≡◌, false, true};
ghost use Rattle.ira_commands.specs.Run.{RunsRing};
ghost use Rattle.ira_main.specs.AskedRun.{run_of};
ghost use Rattle.ira_main.specs.FilesRead.{Gives};
ghost use Rattle.ira_main.specs.Given.{HasNoFault};

use crate::file_fault::Answered;
use ira_commands::{AskedRun, run_asked, run_asked_on_threads};
use ira_event::OutOfMemory;
use ira_main_cli::RunRequest;
use std::alloc::Allocator;
use std::sync::Wait;
use std::thread::Threads;
use std::time::Clock;

/// The run that words ask for.
fn run_of(request: &RunRequest<'_>) -> AskedRun
    ensures { result ≡ run_of request.now }
{
    AskedRun {
        nodes: request.nodes,
        initiators: request.initiators.unwrap_or(request.nodes),
        seed: request.seed,
        draws: request.draws,
        cap: request.cap,
        terms: request.terms,
    }
}

/// Runs the ring that is asked for on one thread.
pub(crate) fn record_run_alone<A: Allocator + Clone>(
    alloc: &A,
    request: &RunRequest<'_>,
) -> Result<Answered<A>, OutOfMemory>
    requires { request.now.is_alone ≡ true }
    ensures { Gives result (RunsRing request.now.is_alone (run_of request.now)) HasNoFault }
{
    Ok(Ok(run_asked(alloc.clone()?, &run_of(request))?))
}

/// Runs the ring that is asked for with a thread for each node.
pub(crate) fn record_run_on_threads<R, A>(
    rt: &R,
    alloc: &A,
    request: &RunRequest<'_>,
) -> Result<Answered<A>, OutOfMemory>
where
    R: Threads + Wait + Clock + Sync,
    A: Allocator + Clone + Send + Sync,
    requires { request.now.is_alone ≡ false }
    ensures { Gives result (RunsRing request.now.is_alone (run_of request.now)) HasNoFault }
{
    Ok(Ok(run_asked_on_threads(rt, alloc.clone()?, &run_of(request))?))
}
