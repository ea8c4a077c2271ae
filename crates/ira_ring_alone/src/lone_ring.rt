ghost use Rattle.std.specs.Prelude.{◌≡◌, ◌<◌, IfOk, OnOk, length};
ghost use Rattle.ira_ring_setup.specs.Setup.{KeepsRules};
ghost use Rattle.ira_ring_alone.specs.LoneRing.{IsTurn, IsLeastAfter, IsReached, AreAtEnd, AreLogsOfNodes, AreEndsOfNodes};

use crate::lone_node::LoneNode;
use ira_event::{Load, NodeLog};
use ira_order::successor;
use ira_ring_setup::{NodeEnd, Setup};
use std::alloc::{AllocError, Allocator};

/// A run on one thread: what it starts from, and where its nodes are.
#[derive(Drop)]
pub(crate) struct LoneRing<'a, A: Allocator> {
    setup: &'a Setup<A>,
    nodes: Vec<LoneNode<'a, A>, A>,
}

/// The least node that may have a next event, where `least` was it before its turn. A node gets on only
/// by its own events and by a sending of the node before it, which is below it unless it is the last.
fn least_after(nodes: u8, least: u8, sent: Option<Load>) -> u8
    requires { least < nodes }
    ensures { IsLeastAfter nodes least sent result }
{
    match sent {
        None => least + 1,
        Some(_) if least + 1 == nodes => 0,
        Some(_) => least,
    }
}

impl<'a, A: Allocator> LoneRing<'a, A> {
    /// The nodes before the first event.
    pub(crate) fn start(alloc: A, setup: &'a Setup<A>) -> Result<LoneRing<'a, A>, AllocError>
    where
        A: Clone,
        requires { KeepsRules setup.now }
        ensures setup { IfOk result (λ ring. ring.setup.now ≡ setup.now) }
        ensures reached { IfOk result (λ ring. IsReached setup.now ring.nodes.items) }
    {
        let size = usize::from(setup.nodes.get());
        let mut nodes = Vec::with_capacity(alloc.clone()?, size)?;
        for i in 0..size {
            nodes.push(LoneNode::first(alloc.clone()?, setup.initiators[i], &setup.draws[i])?)?;
        }
        Ok(LoneRing { setup, nodes })
    }

    /// Goes on until no node can step. Always the least node that can step makes its next event.
    pub(crate) fn run(&mut self) -> Result<(), AllocError>
        requires rules { KeepsRules self.old.setup.now }
        requires reached { IsReached self.old.setup.now self.old.nodes.items }
        ensures setup { OnOk result (self.new.setup.now ≡ self.old.setup.now) }
        ensures done { OnOk result (AreAtEnd self.new.setup.now self.new.nodes.items) }
    {
        let setup = self.setup;
        let nodes = setup.nodes.get();
        let mut least = 0;
        while least < nodes {
            let sent = self.turn(least)?;
            least = least_after(nodes, least, sent);
        }
        Ok(())
    }

    /// The events of a node up to its next sending, where there is one; the load sent is put on its
    /// link.
    fn turn(&mut self, i: u8) -> Result<Option<Load>, AllocError>
        requires rules { KeepsRules self.old.setup.now }
        requires reached { IsReached self.old.setup.now self.old.nodes.items }
        requires place { i < length self.old.nodes.items }
        ensures setup { OnOk result (self.new.setup.now ≡ self.old.setup.now) }
        ensures turn { IfOk result
            (IsTurn self.old.setup.now.nodes self.old.setup.now.cap self.old.setup.now.terms i
            self.old.nodes.items self.new.nodes.items) }
    {
        let setup = self.setup;
        let size = setup.nodes;
        let Some(load) = self.nodes[usize::from(i)].go_on(size, setup.cap, setup.terms)? else {
            return Ok(None);
        };
        let next = successor(size.get(), i);
        self.nodes[usize::from(next)].put(load)?;
        Ok(Some(load))
    }

    /// How the nodes have ended.
    pub(crate) fn ends(&self, alloc: A) -> Result<Vec<NodeEnd, A>, AllocError>
        requires rules { KeepsRules self.now.setup.now }
        requires done { AreAtEnd self.now.setup.now self.now.nodes.items }
        ensures { IfOk result (λ ends. AreEndsOfNodes self.now.setup.now self.now.nodes.items ends.items) }
    {
        let setup = self.setup;
        let mut ends = Vec::with_capacity(alloc, self.nodes.len())?;
        for node in &self.nodes {
            ends.push(node.end(setup.cap, setup.terms))?;
        }
        Ok(ends)
    }

    /// The logs of the nodes.
    pub(crate) fn into_logs(self, alloc: A) -> Result<Vec<NodeLog<A>, A>, AllocError>
        requires rules { KeepsRules self.setup.now }
        requires reached { IsReached self.setup.now self.nodes.items }
        ensures { IfOk result
            (λ logs. AreLogsOfNodes self.entry.setup.now self.entry.nodes.items logs.items) }
    {
        let setup = self.setup;
        let mut logs = Vec::with_capacity(alloc, self.nodes.len())?;
        let mut place = 0;
        for node in self.nodes {
            let initiator = setup.initiators[usize::from(place)];
            logs.push(node.into_log(setup.terms, setup.nodes, place, initiator))?;
            place += 1;
        }
        Ok(logs)
    }
}
