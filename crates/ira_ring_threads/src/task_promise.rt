ghost use Rattle.std.specs.Prelude.{◌≡◌};
ghost use Rattle.ira_ring_threads.specs.TaskPromise.{promise_of};

use crate::finished_node::FinishedNode;
use crate::node_task::NodeTask;
use ira_links::{Closed, LinkIn, LinkOut};
use ira_ring_setup::Setup;
use std::alloc::Allocator;
use std::marker::Model;
use std::snapshot::Snapshot;
use std::thread::Promise;

/// What the thread of a node promises: to be the node at this place of the setup's ring, and to read
/// and write these links.
#[derive(Drop)]
pub struct TaskPromise<A: Allocator> {
    setup: Snapshot<Setup<A>>,
    place: u8,
    input: Snapshot<LinkIn<A>>,
    output: Snapshot<LinkOut<A>>,
}

impl<A: Allocator> Model for TaskPromise<A> {
    ghost use Rattle.ira_ring_threads.specs.TaskPromise.{TaskPromise};

    ghost Value = { TaskPromise };

    ghost view = { λ a. record {
      setup = a.setup.value;
      place = a.place;
      input = a.input.value.link;
      output = a.output.value.link;
    } };
}

impl<A: Allocator> TaskPromise<A> {
    /// The promise of the thread that is given the task.
    pub(crate) fn of(setup: &Setup<A>, task: &NodeTask<A>) -> TaskPromise<A>
        ensures { result ≡ promise_of setup.now task.now }
    {
        TaskPromise {
            setup: Snapshot::of(setup),
            place: task.place,
            input: Snapshot::of(&task.input),
            output: Snapshot::of(&task.output),
        }
    }
}

impl<A: Allocator> Promise<Result<FinishedNode<A>, Closed>> for TaskPromise<A> {
    ghost use Rattle.std.specs.Prelude.{IfOk};
    ghost use Rattle.ira_ring_threads.specs.FinishedNode.{KeepsPromise};

    ghost kept_by = { λ promise result. IfOk result (KeepsPromise promise) };
}
