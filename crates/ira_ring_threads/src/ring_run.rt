// A run with a thread for each node, from its setup to what the nodes recorded.
ghost use Rattle.std.specs.Prelude.{◌≡◌, ◌↔◌, ◌≢◌, ◌≤◌, [], Err, None, map, replicate, length, IfOk, IfErr, OnOk, ◌⊎◌};
ghost use Rattle.std.specs.VecDeque.{deque_capacity};
ghost use Rattle.ira_ring_setup.specs.declared.run_fault.RunFault.TheVariants.{Setup as SetupFault, NoEnd, Stranger, Double, Thread, Closed as ClosedFault};
ghost use Rattle.ira_ring_setup.specs.Setup.{KeepsRules};
ghost use Rattle.ira_ring_setup.specs.Run.{IsRun};
ghost use Rattle.ira_ring_threads.specs.NodeTask.{AreTasksOfRing};
ghost use Rattle.ira_ring_threads.specs.FinishedNode.{AreFinishedOnRing, AreOfOneRing, FramesPassRoundRing};
ghost use Rattle.ira_ring_setup.specs.Recording.{IsRecording, HasOwnEnd};
ghost use Rattle.ira_ring_setup.specs.Agreement.{Agrees};

use crate::finished_node::FinishedNode;
use crate::room::Room;
use crate::threads::run_tasks;
use ira_links::{Gate, settle};
use ira_ring_setup::{Collector, Run, RunFault, Setup};
use std::alloc::Allocator;
use std::collections::VecDeque;
use std::sync::Wait;
use std::thread;
use std::thread::Threads;
use std::time::Clock;

/// Settles each link, and gives the run of the parts. It has an end: not all nodes of a ring wait for one
/// another.
fn settle_all<A: Allocator>(
    mut finished_nodes: VecDeque<FinishedNode<A>, A>,
    mut collector: Collector<A>,
) -> Run<A>
    requires none { collector ≡ replicate (length collector) None }
    requires size { 1 ≤ length collector }
    requires ring { AreOfOneRing (length collector) finished_nodes.items }
    ensures valid { IsRun result }
    ensures logs { result.logs ≡ map (λ finished. finished.log) finished_nodes.items }
    ensures ends { result.ends ≡ map (λ finished. finished.end) finished_nodes.items }
    ensures passed { FramesPassRoundRing finished_nodes.items }
{
    let Some(first) = finished_nodes.pop_front() else {
        unreachable!()
    };
    let FinishedNode {
        part,
        input: first_input,
        output: mut last,
    } = first;
    let Ok(()) = collector.take(part) else {
        unreachable!()
    };
    while let Some(finished) = finished_nodes.pop_front() {
        let FinishedNode {
            part,
            input,
            output,
        } = finished;
        settle(last, input);
        let Ok(()) = collector.take(part) else {
            unreachable!()
        };
        last = output;
    }
    settle(last, first_input);
    let Ok(run) = collector.finish() else {
        unreachable!()
    };
    run
}

/// Runs the nodes of the setup, each in a thread of its own, with links between them that hold `2N + 2`
/// frames. `Setup` where the setup breaks the rules; nothing is taken before they were looked at. All
/// memory is reserved before the first thread starts.
///
/// The logs are those of `run_alone`, and so are the ends, with `Stopped` for `Quiet`, however the threads were
/// scheduled.
///
/// Threads start by rising place, each after the gate admitted it. Where the gate doesn't admit one, or it
/// can't be started, `Stop` is put on the link to node 0, if the end that writes it wasn't given away yet; all
/// ends that are left are dropped, the started threads are joined, and the answer is `Thread`, whatever
/// they answer. `Closed` where all were started and one of them found its link closed.
pub fn run_ring<R, G, A>(rt: &R, alloc: A, setup: &Setup<A>, gate: &G) -> Result<Run<A>, RunFault>
where
    R: Threads + Wait + Clock + Sync,
    G: Gate + Sync,
    A: Allocator + Clone + Send + Sync,
    ensures rules { (result ≡ Err SetupFault) ↔ ¬ (KeepsRules setup.now) }
    ensures kept { OnOk result (KeepsRules setup.now) }
    ensures recording { IfOk result (IsRecording setup.now) }
    ensures agrees { IfOk result (Agrees setup.now) }
    ensures ended { IfOk result HasOwnEnd }
    ensures faults { IfErr result (λ f. (f ≢ Stranger) × (f ≢ Double)) }

    // A ring of a setup that keeps the rules never stands still.
    ensures no_end { result ≢ Err NoEnd }
{
    if !setup.keeps_rules() {
        return Err(RunFault::Setup);
    }
    let room = Room::reserve(alloc, setup)?;
    let Room {
        tasks,
        started_nodes,
        finished_nodes,
        collector,
    } = room;
    let finished_nodes = thread::scope(
        thread::scope_env(),
        rt,
        move |scope| -> Result<VecDeque<FinishedNode<A>, A>, RunFault>
            requires { KeepsRules setup.now × AreTasksOfRing setup.now.cap setup.now.nodes tasks.items
                × (started_nodes.items ≡ []) × (setup.now.nodes ≤ deque_capacity started_nodes)
                × (finished_nodes.items ≡ []) × (setup.now.nodes ≤ deque_capacity finished_nodes) }
            ensures { IfOk result (λ finished_nodes. AreFinishedOnRing setup.entry.now finished_nodes.items)
                × IfErr result (λ f. (f ≡ Thread) ⊎ (f ≡ ClosedFault)) }
        { run_tasks(rt, setup, gate, scope, tasks, started_nodes, finished_nodes) },
    )?;
    Ok(settle_all(finished_nodes, collector))
}
