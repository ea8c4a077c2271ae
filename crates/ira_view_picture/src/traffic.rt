ghost use Rattle.std.specs.Prelude.{◌≡◌, ◌↔◌, ◌+◌, ◌<◌, ℕ, Some, IfOk, OnOk, length, slice_get};
ghost use Rattle.ira_event.specs.Log.{Log};
ghost use Rattle.ira_view_picture.specs.Traffic.{ChangesNothing, IsTraffic};

use crate::after::After;
use ira_event::{Event, OutOfMemory};
use ira_node::{NodeState, Phase};
use std::alloc::Allocator;
use std::marker::Model;

/// What a receipt did to its node.
#[derive(Clone, Copy, PartialEq, Eq)]
pub(crate) enum Effect {
    /// The node went on, or has no state.
    GoesOn,
    /// The node is as it was.
    Nothing,
    /// The node leads.
    Leads,
}

/// A receipt of a node.
#[derive(Clone, Copy)]
pub(crate) struct Receipt {
    /// The event's number in the log, from 1.
    pub(crate) position: u32,
    pub(crate) effect: Effect,
}

/// What a node sends and receives, each in its order.
#[derive(Drop)]
pub(crate) struct Traffic<A: Allocator> {
    /// The numbers of the events that send.
    pub(crate) sendings: Vec<u32, A>,
    pub(crate) receipts: Vec<Receipt, A>,
}

impl<A: Allocator> Model for Traffic<A> {
    ghost use Rattle.ira_view_picture.specs.Traffic.{Traffic};

    ghost Value = { Traffic };

    ghost view = { λ t. record { sendings = t.sendings.items; receipts = t.receipts.items } };
}

/// What an event does, by the last state before it and by what is known after it.
fn effect_of(before: NodeState, after: After) -> Effect
    ensures { (result ≡ Effect.Nothing) ↔ (after ≡ After.State before) }
{
    match after {
        After::State(after) if after == before => Effect::Nothing,
        After::State(after) if matches!(after.phase, Phase::Leader { .. }) => Effect::Leads,
        _ => Effect::GoesOn,
    }
}

impl<A: Allocator> Traffic<A> {
    pub(crate) fn new(alloc: A) -> Result<Traffic<A>, OutOfMemory>
    where
        A: Clone,
        ensures { IfOk result (λ t. (log : Log) → IsTraffic log 0 t) }
    {
        Ok(Traffic {
            sendings: Vec::new(alloc.clone()?),
            receipts: Vec::new(alloc),
        })
    }

    /// Adds an event, by the last state before it and by what is known after it.
    pub(crate) fn add(
        &mut self,
        position: u32,
        event: Event,
        before: NodeState,
        after: After,
    ) -> Result<(), OutOfMemory>
        ensures { OnOk result
            ((log : Log) (n : ℕ) → slice_get log.events n ≡ Some event → position ≡ n + 1
            → (ChangesNothing log position ↔ (after ≡ After.State before)) → IsTraffic log n self.old
            → IsTraffic log (n + 1) self.new) }
    {
        match event {
            Event::Sent(_) => self.sendings.push(position)?,
            Event::Got(_) => {
                let effect = effect_of(before, after);
                self.receipts.push(Receipt { position, effect })?;
            }
            Event::Draw(_) | Event::Yield => {}
        }
        Ok(())
    }

    /// How many sendings there are.
    pub(crate) fn number_of_sendings(&self) -> usize
        ensures { result ≡ length self.now.sendings }
    {
        self.sendings.len()
    }

    /// How many receipts there are.
    pub(crate) fn number_of_receipts(&self) -> usize
        ensures { result ≡ length self.now.receipts }
    {
        self.receipts.len()
    }

    /// The number of the event that is sending `k`, from 0.
    pub(crate) fn sending(&self, k: usize) -> Option<u32>
        ensures { result ≡ slice_get self.now.sendings k }
    {
        self.sendings.get(k).copied()
    }

    /// Receipt `k`, from 0.
    pub(crate) fn receipt(&self, k: usize) -> Option<Receipt>
        ensures { result ≡ slice_get self.now.receipts k }
    {
        self.receipts.get(k).copied()
    }

    /// The number, from 0, of the receipt that is this event, where it is one.
    pub(crate) fn receipt_at(&self, position: u32) -> Option<usize> {
        self.receipts
            .binary_search_by_key(&position, |receipt| receipt.position)
            .ok()
    }
}

/// What the node at a place sends and receives.
pub(crate) fn traffic_of<A: Allocator>(traffic: &[Traffic<A>], place: u8) -> &Traffic<A>
    requires { place < length traffic.now }
    ensures { slice_get traffic.now place ≡ Some result.now }
{
    &traffic[place as usize]
}
