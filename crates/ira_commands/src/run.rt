ghost use Rattle.std.specs.Prelude.{IfOk, false, true};
ghost use Rattle.ira_commands.specs.Run.{RunsRing, TellsRun, TellsRunResult};

use crate::asked_run::AskedRun;
use crate::command_fault::CommandFault;
use crate::files::Files;
use crate::reply::Reply;
use ira_event::{MemorySink, OutOfMemory};
use ira_links::OpenGate;
use ira_ring::{Run, RunFault, ring_size, run_ring, write_ends};
use ira_view::Status;
use std::alloc::Allocator;
use std::sync::Wait;
use std::thread::Threads;
use std::time::Clock;

/// How each node of a run ended, and its log. How they ended is put together before a file is made, since memory may run out.
fn tell_ends<A: Allocator + Clone>(alloc: A, run: Run<A>) -> Result<Reply<A>, OutOfMemory>
    ensures { IfOk result (TellsRun run) }
{
    let mut ends = MemorySink::new(alloc);
    let Ok(()) = write_ends(&run, &mut ends) else {
        return Err(OutOfMemory);
    };
    let status = Status::of_ends(run.ends());
    Ok(Reply::printed(status, ends).with_files(Files::Run(run)))
}

/// What came of a run: how each node ended, and its log, or why there is none.
fn tell_run<A: Allocator + Clone>(
    alloc: A,
    run: Result<Run<A>, RunFault>,
) -> Result<Reply<A>, OutOfMemory>
    ensures { IfOk result (TellsRunResult run) }
{
    match run {
        Ok(run) => tell_ends(alloc, run),
        Err(RunFault::OutOfMemory) => Err(OutOfMemory),
        Err(fault) => Ok(Reply::refused(alloc, CommandFault::RunRefused(fault))),
    }
}

/// The run that is asked for, on one thread.
pub fn run_asked<A: Allocator + Clone>(alloc: A, asked: &AskedRun) -> Result<Reply<A>, OutOfMemory>
    ensures { IfOk result (RunsRing true asked.now) }
{
    let Some(nodes) = ring_size(asked.nodes) else {
        return Ok(Reply::refused(alloc, CommandFault::RingSize));
    };
    let run = asked.ring(nodes).run_alone(alloc.clone()?);
    tell_run(alloc, run)
}

/// The run that is asked for, with a thread for each node. A number of terms that no setup could hold is that of one which
/// breaks the rules.
pub fn run_asked_on_threads<R, A>(
    rt: &R,
    alloc: A,
    asked: &AskedRun,
) -> Result<Reply<A>, OutOfMemory>
where
    R: Threads + Wait + Clock + Sync,
    A: Allocator + Clone + Send + Sync,
    ensures { IfOk result (RunsRing false asked.now) }
{
    let Some(nodes) = ring_size(asked.nodes) else {
        return Ok(Reply::refused(alloc, CommandFault::RingSize));
    };
    let Ok(terms) = u32::try_from(asked.terms) else {
        return Ok(Reply::refused(alloc, CommandFault::RunRefused(RunFault::Setup)));
    };
    let setup = asked.setup(alloc.clone()?, nodes, terms)?;
    let run = run_ring(rt, alloc.clone()?, &setup, &OpenGate);
    tell_run(alloc, run)
}
