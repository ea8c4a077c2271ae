use crate::finished_node::FinishedNode;
use crate::task_promise::TaskPromise;
use ira_links::Closed;
use std::alloc::Allocator;
use std::marker::Model;
use std::thread::PromisedHandle;

/// The started thread of a node; seen by contracts as what it was started for.
#[derive(Drop)]
pub struct StartedNode<A: Allocator> {
    pub(crate) handle: PromisedHandle<Result<FinishedNode<A>, Closed>, TaskPromise<A>>,
}

impl<A: Allocator> Model for StartedNode<A> {
    ghost use Rattle.ira_ring_threads.specs.TaskPromise.{TaskPromise};

    ghost Value = { TaskPromise };

    ghost view = { λ a. a.handle.promise };
}
