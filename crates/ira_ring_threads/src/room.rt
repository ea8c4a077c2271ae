ghost use Rattle.std.specs.Prelude.{◌≡◌, ◌≤◌, ◌-◌, [], None, replicate, IfOk};
ghost use Rattle.std.specs.VecDeque.{deque_capacity};
ghost use Rattle.ira_links.specs.Limits.{MAX_CAPACITY};
ghost use Rattle.ira_ring_threads.specs.NodeTask.{AreTasksOfPlaces, AreTasksOfRing};

use crate::finished_node::FinishedNode;
use crate::node_task::NodeTask;
use crate::started_node::StartedNode;
use ira_event::OutOfMemory;
use ira_links::{LinkIn, link};
use ira_ring_setup::{Collector, Setup};
use std::alloc::Allocator;
use std::collections::VecDeque;

/// All memory of a run: its tasks, and the empty queues and the collector for what comes of them.
#[derive(Drop)]
pub(crate) struct Room<A: Allocator> {
    pub(crate) tasks: VecDeque<NodeTask<A>, A>,
    pub(crate) started_nodes: VecDeque<StartedNode<A>, A>,
    pub(crate) finished_nodes: VecDeque<FinishedNode<A>, A>,
    pub(crate) collector: Collector<A>,
}

/// How many frames a link of the setup's ring holds at once.
fn capacity<A: Allocator>(setup: &Setup<A>) -> u32
    ensures { (1 ≤ result) × (result ≤ MAX_CAPACITY) }
{
    2 * u32::from(setup.nodes.get()) + 2
}

/// Adds the tasks of all places but the last, of which the first is to read `first`, and gives the end that
/// the last place is to read.
fn most_tasks<A: Allocator + Clone>(
    alloc: A,
    setup: &Setup<A>,
    tasks: &mut VecDeque<NodeTask<A>, A>,
    first: LinkIn<A>,
) -> Result<LinkIn<A>, OutOfMemory>
    requires none { tasks.old.items ≡ [] }
    requires fresh { first.frames ≡ [] }
    ensures tasks { IfOk result
        (λ input. AreTasksOfPlaces setup.now.cap 0 first.link tasks.new.items
        (setup.now.nodes - 1) input.link) }
    ensures fresh { IfOk result (λ input. input.frames ≡ []) }
{
    let mut input = first;
    for place in 0..setup.nodes.get() - 1 {
        let (output, next) = link(alloc.clone()?, capacity(setup))?;
        let task = NodeTask::new(alloc.clone()?, setup.cap, place, input, output)?;
        tasks.push_back(task)?;
        input = next;
    }
    Ok(input)
}

/// The tasks of all places, linked round the ring.
fn all_tasks<A: Allocator + Clone>(
    alloc: A,
    setup: &Setup<A>,
) -> Result<VecDeque<NodeTask<A>, A>, OutOfMemory>
    ensures tasks { IfOk result (λ tasks. AreTasksOfRing setup.now.cap setup.now.nodes tasks.items) }
{
    let mut tasks = VecDeque::with_capacity(alloc.clone()?, usize::from(setup.nodes.get()))?;
    let (last, first) = link(alloc.clone()?, capacity(setup))?;
    let input = most_tasks(alloc.clone()?, setup, &mut tasks, first)?;
    let task = NodeTask::new(alloc, setup.cap, setup.nodes.get() - 1, input, last)?;
    tasks.push_back(task)?;
    Ok(tasks)
}

impl<A: Allocator> Room<A> {
    /// Reserves the room for a run of the setup.
    pub(crate) fn reserve(alloc: A, setup: &Setup<A>) -> Result<Room<A>, OutOfMemory>
    where
        A: Clone,
        ensures tasks { IfOk result (λ room. AreTasksOfRing setup.now.cap setup.now.nodes room.tasks.items) }
        ensures started_nodes { IfOk result
            (λ room. (room.started_nodes.items ≡ [])
            × (setup.now.nodes ≤ deque_capacity room.started_nodes)) }
        ensures finished_nodes { IfOk result
            (λ room. (room.finished_nodes.items ≡ [])
            × (setup.now.nodes ≤ deque_capacity room.finished_nodes)) }
        ensures collector { IfOk result (λ room. room.collector ≡ replicate setup.now.nodes None) }
    {
        let nodes = usize::from(setup.nodes.get());
        let tasks = all_tasks(alloc.clone()?, setup)?;
        let started_nodes = VecDeque::with_capacity(alloc.clone()?, nodes)?;
        let finished_nodes = VecDeque::with_capacity(alloc.clone()?, nodes)?;
        let collector = Collector::new(alloc, setup.nodes)?;
        Ok(Room {
            tasks,
            started_nodes,
            finished_nodes,
            collector,
        })
    }
}
