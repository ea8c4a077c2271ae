ghost use Rattle.std.specs.Prelude.{◌≡◌, ◌≤◌, ◌-◌, List, IfOk, Some, length, slice_get, take};
ghost use Rattle.ira_event.specs.declared.event.Event.{Event};
ghost use Rattle.ira_order.specs.Matching.{got};
ghost use Rattle.ira_order.specs.Stamps.{AreReceipts};
ghost use Rattle.ira_order.specs.DirectDependencies.{AreDependencies};

use crate::receipt_numbers::received_by;
use ira_event::{Event, NodeLog};
use std::alloc::{AllocError, Allocator};
use std::marker::Model;

/// A sending of a node.
#[derive(Clone, Copy)]
pub(crate) struct Sending {
    /// Its number in the node's log.
    pub(crate) number: u32,
    /// How many messages the node has received by then.
    pub(crate) received: u32,
}

/// The receipts and the sendings of one node.
#[derive(Drop)]
pub(crate) struct NodeDependencies<A: Allocator> {
    /// The number of each receipt in its log.
    receipts: Vec<u32, A>,
    sendings: Vec<Sending, A>,
}

impl<A: Allocator> Model for NodeDependencies<A> {
    ghost use Rattle.ira_order.specs.DirectDependencies.{NodeDependencies};

    ghost Value = { NodeDependencies };

    ghost view = { λ a. record { receipts = a.receipts.items; sendings = a.sendings.items } };
}

impl<A: Allocator> NodeDependencies<A> {
    /// The receipts and the sendings of a log, found in one pass.
    pub(crate) fn of_log(alloc: A, log: &NodeLog<A>) -> Result<NodeDependencies<A>, AllocError>
    where
        A: Clone,
        ensures { IfOk result (AreDependencies log.now.events) }
    {
        let mut receipts = Vec::with_capacity(alloc.clone()?, log.len())?;
        let mut sendings = Vec::with_capacity(alloc, log.len())?;
        let mut number = 0;
        for event in log.events() {
            number += 1;
            match event {
                Event::Got(_) => receipts.push(number)?,
                Event::Sent(_) => {
                    let received = receipts.len() as u32;
                    sendings.push(Sending { number, received })?;
                }
                Event::Draw(_) | Event::Yield => {}
            }
        }
        Ok(NodeDependencies { receipts, sendings })
    }

    /// How many messages the node has received with event `b` of its log.
    pub(crate) fn received(&self, b: u32) -> usize
        ensures { (events : List Event) → AreReceipts events self.now.receipts
            → result ≡ length (got (take b events)) }
    {
        received_by(&self.receipts, b)
    }

    /// Sending number `k`, counted from 1.
    pub(crate) fn sending(&self, k: usize) -> Sending
        requires { (1 ≤ k) × (k ≤ length self.now.sendings) }
        ensures { slice_get self.now.sendings (k - 1) ≡ Some result }
    {
        self.sendings[k - 1]
    }
}
