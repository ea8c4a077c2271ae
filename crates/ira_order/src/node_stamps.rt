ghost use Rattle.std.specs.Prelude.{◌≡◌, ◌*◌, ◌≤◌, ◌++◌, List, [], IfOk, OnOk, length, take};
ghost use Rattle.ira_event.specs.Limits.{MAX_NODES};
ghost use Rattle.ira_event.specs.declared.event.Event.{Event};
ghost use Rattle.ira_order.specs.Matching.{got};
ghost use Rattle.ira_order.specs.Stamps.{AreReceipts, IsRow};

use crate::receipt_numbers::{receipt_numbers, received_by};
use ira_event::{MAX_NODES, NodeLog};
use std::alloc::{AllocError, Allocator};
use std::marker::Model;

/// The receipts of one node, and the stamps of the first of them.
#[derive(Drop)]
pub(crate) struct NodeStamps<A: Allocator> {
    /// The number of each receipt in its log.
    numbers: Vec<u32, A>,
    /// A counter for each node of the ring, stamp by stamp.
    counters: Vec<u32, A>,
}

impl<A: Allocator> Model for NodeStamps<A> {
    ghost use Rattle.ira_order.specs.Stamps.{NodeStamps};

    ghost Value = { NodeStamps };

    ghost view = { λ a. record { numbers = a.numbers.items; counters = a.counters.items } };
}

/// The stamp of an event that no receipt of its node comes before: no event of another node is known.
static NOTHING_RECEIVED: [u32; MAX_NODES] = [0; MAX_NODES];

impl<A: Allocator> NodeStamps<A> {
    /// The receipts of a log with no stamp, and room for all stamps.
    pub(crate) fn start(alloc: A, log: &NodeLog<A>) -> Result<NodeStamps<A>, AllocError>
    where
        A: Clone,
        ensures receipts { IfOk result (λ stamps. AreReceipts log.now.events stamps.numbers) }
        ensures counters { IfOk result (λ stamps. stamps.counters ≡ []) }
    {
        let numbers = receipt_numbers(alloc.clone()?, log)?;
        let room = numbers.len() * usize::from(log.nodes().get());
        let counters = Vec::with_capacity(alloc, room)?;
        Ok(NodeStamps { numbers, counters })
    }

    /// How many receipts the node has.
    pub(crate) fn receipts(&self) -> usize
        ensures { result ≡ length self.now.numbers }
    {
        self.numbers.len()
    }

    /// How many messages the node has received with event `b` of its log.
    pub(crate) fn received(&self, b: u32) -> usize
        ensures { (events : List Event) → AreReceipts events self.now.numbers
            → result ≡ length (got (take b events)) }
    {
        received_by(&self.numbers, b)
    }

    /// The stamp of a receipt, on a ring of so many nodes; receipts count from 1, and for 0 all is 0.
    pub(crate) fn row(&self, nodes: usize, receipt: usize) -> &[u32]
        requires nodes { nodes ≤ MAX_NODES }
        requires receipt { receipt * nodes ≤ length self.now.counters }
        ensures { IsRow nodes self.now.counters receipt result.now }
    {
        if receipt == 0 {
            return &NOTHING_RECEIVED[..nodes];
        }
        let counters = self.counters.as_slice();
        let end = receipt * nodes;
        &counters[end - nodes..end]
    }

    /// Adds the stamp of the next receipt.
    pub(crate) fn add(&mut self, row: &[u32]) -> Result<(), AllocError>
        ensures { OnOk result (self.new
            ≡ record { numbers = self.old.numbers; counters = self.old.counters ++ row.now }) }
    {
        self.counters.extend_from_slice(row)
    }

    /// How many counters are kept.
    pub(crate) fn stored(&self) -> usize
        ensures { result ≡ length self.now.counters }
    {
        self.counters.len()
    }
}
