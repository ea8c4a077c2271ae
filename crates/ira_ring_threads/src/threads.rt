// The threads of a ring: one for each node.
ghost use Rattle.std.specs.Prelude.{◌≡◌, ◌≤◌, ◌<◌, [], true, map, IfOk, IfErr, ◌⊎◌};
ghost use Rattle.std.specs.VecDeque.{deque_len, deque_capacity};
ghost use Rattle.ira_ring_setup.specs.declared.run_fault.RunFault.TheVariants.{Thread, Closed as ClosedFault};
ghost use Rattle.ira_ring_setup.specs.Setup.{KeepsRules};
ghost use Rattle.ira_ring_threads.specs.NodeTask.{AreTasksOfRing};
ghost use Rattle.ira_ring_threads.specs.TaskPromise.{promise_of};
ghost use Rattle.ira_ring_threads.specs.FinishedNode.{KeepsPromise, KeepPromises, AreFinishedOnRing};

use crate::finished_node::FinishedNode;
use crate::node_task::NodeTask;
use crate::started_node::StartedNode;
use crate::task_promise::TaskPromise;
use ira_links::{Closed, Gate};
use ira_ring_setup::{RunFault, Setup};
use std::alloc::Allocator;
use std::collections::VecDeque;
use std::sync::Wait;
use std::thread::{Scope, Threads};
use std::time::Clock;

/// Starts the threads of the tasks, by rising place, each after the gate admitted it; true where all were
/// started. Where the gate doesn't admit one, or it can't be started, `Stop` is put on the last link, if the
/// task that writes it is still here, and the tasks that are left are dropped. The task of a thread that
/// can't be started is dropped with the closure that took it: no `Stop` is put where that is the last.
fn start_all<'s, 'e, R, G, A>(
    rt: &'e R,
    setup: &'e Setup<A>,
    gate: &'e G,
    scope: &'s Scope<'s, &'e ()>,
    mut tasks: VecDeque<NodeTask<A>, A>,
    mut started_nodes: VecDeque<StartedNode<A>, A>,
) -> (VecDeque<StartedNode<A>, A>, bool)
where
    R: Wait + Clock + Threads + Sync,
    G: Gate + Sync,
    A: Allocator + Send + Sync + 'e,
    requires rules { KeepsRules setup.now }
    requires tasks { AreTasksOfRing setup.now.cap setup.now.nodes tasks.items }
    requires room { (started_nodes.items ≡ []) × (setup.now.nodes ≤ deque_capacity started_nodes) }
    ensures few { deque_len result.0 ≤ setup.now.nodes }
    ensures promises { result.1 ≡ true → result.0.items ≡ map (promise_of setup.now) tasks.items }
{
    while let Some(task) = tasks.pop_front() {
        if !gate.admit(u32::from(task.place)) {
            tasks.pop_back().unwrap_or(task).stop(rt);
            return (started_nodes, false);
        }
        let promise = TaskPromise::of(setup, &task);
        let body = move || -> Result<FinishedNode<A>, Closed>
            requires { KeepsRules setup.now × (task.place < setup.now.nodes) × (task.cap ≡ setup.now.cap) }
            ensures { IfOk result (KeepsPromise (promise_of setup.entry.now task)) }
        { task.run(rt, setup, gate) };
        let Ok(handle) = scope.spawn_with(promise, body) else {
            if let Some(last) = tasks.pop_back() {
                last.stop(rt);
            }
            return (started_nodes, false);
        };
        started_nodes.push_back_reserved(StartedNode { handle });
    }
    (started_nodes, true)
}

/// Joins all threads; true where none of them answered `Closed`.
fn join_all<R: Threads, A: Allocator>(
    rt: &R,
    mut started_nodes: VecDeque<StartedNode<A>, A>,
    mut finished_nodes: VecDeque<FinishedNode<A>, A>,
) -> (VecDeque<FinishedNode<A>, A>, bool)
    requires room { (finished_nodes.items ≡ []) × (deque_len started_nodes ≤ deque_capacity finished_nodes) }
    ensures { result.1 ≡ true → KeepPromises started_nodes.items result.0.items }
{
    let mut all = true;
    while let Some(started_node) = started_nodes.pop_front() {
        let StartedNode { handle } = started_node;
        match handle.join(rt) {
            Ok(finished) => finished_nodes.push_back_reserved(finished),
            Err(Closed) => all = false,
        }
    }
    (finished_nodes, all)
}

/// Runs the nodes of the tasks, each in a thread of its own. The two empty queues are the room for the
/// threads, and for what they give back.
pub(crate) fn run_tasks<'s, 'e, R, G, A>(
    rt: &'e R,
    setup: &'e Setup<A>,
    gate: &'e G,
    scope: &'s Scope<'s, &'e ()>,
    tasks: VecDeque<NodeTask<A>, A>,
    started_nodes: VecDeque<StartedNode<A>, A>,
    finished_nodes: VecDeque<FinishedNode<A>, A>,
) -> Result<VecDeque<FinishedNode<A>, A>, RunFault>
where
    R: Wait + Clock + Threads + Sync,
    G: Gate + Sync,
    A: Allocator + Send + Sync + 'e,
    requires rules { KeepsRules setup.now }
    requires tasks { AreTasksOfRing setup.now.cap setup.now.nodes tasks.items }
    requires started_nodes { (started_nodes.items ≡ []) × (setup.now.nodes ≤ deque_capacity started_nodes) }
    requires finished_nodes { (finished_nodes.items ≡ [])
        × (setup.now.nodes ≤ deque_capacity finished_nodes) }
    ensures ok { IfOk result (λ finished_nodes. AreFinishedOnRing setup.now finished_nodes.items) }
    ensures err { IfErr result (λ f. (f ≡ Thread) ⊎ (f ≡ ClosedFault)) }
{
    let (started_nodes, all_started) = start_all(rt, setup, gate, scope, tasks, started_nodes);
    let (finished_nodes, all) = join_all(rt, started_nodes, finished_nodes);
    if !all_started {
        return Err(RunFault::Thread);
    }
    if !all {
        return Err(RunFault::Closed);
    }
    Ok(finished_nodes)
}
