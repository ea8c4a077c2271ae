ghost use Rattle.std.specs.Prelude.{◌≡◌, ◌↔◌, ◌<◌, length, ℕ, Err, IfOk, OnOk, MatchBool};
ghost use Rattle.ira_order.specs.declared.match_fault.MatchFault.{MatchFault};
ghost use Rattle.ira_order.specs.declared.order_fault.OrderFault.TheVariants.{Match, Circle};
ghost use Rattle.ira_order.specs.Matching.{Matches};
ghost use Rattle.ira_order.specs.MatchFault.{IsMatchFault};
ghost use Rattle.ira_order.specs.Circle.{HasCircle};
ghost use Rattle.ira_order.specs.Order.{occurrences};
ghost use Rattle.ira_order.specs.Counts.{IsWhole};
ghost use Rattle.ira_order.specs.OrderPrefix.{IsOrderPrefix, IsLongest, IsShort, IsStuckAt, HasGrown, tally_at};
ghost use Rattle.ira_order.specs.Ordered.{IsOrdered};

use crate::order_fault::OrderFault;
use crate::ring::predecessor;
use crate::tally::{Tally, first_tallies};
use ira_event::{Event, Logs};
use std::alloc::{AllocError, Allocator};
use std::marker::Model;

/// A beginning of an order: the places of its events one after the other, and how far each node has come by them.
#[derive(Drop)]
pub struct OrderPrefix<A: Allocator> {
    places: Vec<u8, A>,
    tallies: Vec<Tally, A>,
}

impl<A: Allocator> Model for OrderPrefix<A> {
    ghost use Rattle.ira_order.specs.OrderPrefix.{OrderPrefix};

    ghost Value = { OrderPrefix };

    ghost view = { λ a. record { places = a.places.items; tallies = a.tallies.items } };
}

impl<A: Allocator> OrderPrefix<A> {
    /// A beginning that no event may come after. Whether the logs match doesn't matter here.
    pub fn longest(alloc: A, logs: &Logs<A>) -> Result<OrderPrefix<A>, AllocError>
    where
        A: Clone,
        ensures { IfOk result (IsLongest logs.now) }
    {
        let mut prefix = OrderPrefix::start(alloc, logs)?;
        prefix.rounds(logs)?;
        Ok(prefix)
    }

    /// The beginning without an event.
    fn start(alloc: A, logs: &Logs<A>) -> Result<OrderPrefix<A>, AllocError>
    where
        A: Clone,
        ensures { IfOk result (IsOrderPrefix logs.now) }
    {
        Ok(OrderPrefix {
            places: Vec::new(alloc.clone()?),
            tallies: first_tallies(alloc, logs)?,
        })
    }

    /// How many events it has.
    fn len(&self) -> usize
        ensures { result ≡ length self.now.places }
    {
        self.places.len()
    }

    /// How far a node has come by it.
    pub fn tally(&self, place: u8) -> Tally
        requires { place < length self.now.tallies }
        ensures { result ≡ tally_at self.now.tallies place }
    {
        self.tallies[usize::from(place)]
    }

    /// Adds the events of a node as far as they may come. The node before it makes none meanwhile, so
    /// the number of its sendings stays.
    fn advance_node(&mut self, logs: &Logs<A>, i: u8) -> Result<(), AllocError>
        requires prefix { IsOrderPrefix logs.now self.old }
        requires place { i < length logs.now }
        ensures prefix { OnOk result (IsOrderPrefix logs.now self.new) }
        ensures further { OnOk result (HasGrown self.old.places self.new.places) }
        ensures stuck { OnOk result (IsStuckAt logs.now (occurrences self.new.places) i) }
    {
        let writer = predecessor(logs.size().get(), i);
        let sendings = self.tallies[usize::from(writer)].sendings;
        let log = logs.log(i);
        let node = usize::from(i);
        let before = self.tallies[node].events;
        let mut tally = self.tallies[node];
        while (tally.events as usize) < log.len() {
            let event = log.event(tally.events + 1);
            // Two tests of the packed kind; a `match` would first make the event's own tag of it.
            if let Event::Got(_) = event {
                if tally.receipts == sendings {
                    break;
                }
                tally.receipts += 1;
            } else if let Event::Sent(_) = event {
                tally.sendings += 1;
            }
            tally.events += 1;
        }
        let places = self.places.len() + (tally.events - before) as usize;
        self.places.resize(places, i)?;
        self.tallies[node] = tally;
        Ok(())
    }

    /// Advances each node in turn. After the first round a node can get on only after the one before it,
    /// and node 0 only after the last one; so every node gets on in each round but the first and the
    /// last two, and the rounds cost no more than the events and a few times the nodes.
    fn round(&mut self, logs: &Logs<A>) -> Result<(), AllocError>
        requires { IsOrderPrefix logs.now self.old }
        ensures prefix { OnOk result (IsOrderPrefix logs.now self.new) }
        ensures further { OnOk result (HasGrown self.old.places self.new.places) }
        ensures stuck { OnOk result
            (length self.new.places ≡ length self.old.places → IsLongest logs.now self.new) }
    {
        for i in 0..logs.size().get() {
            self.advance_node(logs, i)?;
        }
        Ok(())
    }

    /// Goes on until no event may come.
    fn rounds(&mut self, logs: &Logs<A>) -> Result<(), AllocError>
        requires { IsOrderPrefix logs.now self.old }
        ensures { OnOk result (IsLongest logs.now self.new) }
    {
        loop {
            let before = self.len();
            self.round(logs)?;
            if self.len() == before {
                return Ok(());
            }
        }
    }

    /// Whether it holds every event.
    pub fn is_whole(&self, logs: &Logs<A>) -> bool
        requires { IsOrderPrefix logs.now self.now }
        ensures { MatchBool result (IsWhole logs.now self.now.places) (IsShort logs.now self.now.places) }
    {
        for place in 0..logs.size().get() {
            if (self.tally(place).events as usize) < logs.log(place).len() {
                return false;
            }
        }
        true
    }

    /// The places of a beginning that no event may come after, where it holds every event of logs that match.
    pub(crate) fn into_order(self, logs: &Logs<A>) -> Result<Vec<u8, A>, OrderFault>
        requires matches { Matches logs.now }
        requires longest { IsLongest logs.now self }
        ensures ok { IfOk result
            (λ places. IsOrdered (record { logs = logs.now; schedule = places.items })) }
        ensures matching { (f : MatchFault) → (result ≡ Err (Match f)) ↔ IsMatchFault logs.now f }
        ensures circle { (result ≡ Err Circle) ↔ HasCircle logs.now }
    {
        if !self.is_whole(logs) {
            return Err(OrderFault::Circle);
        }
        Ok(self.places)
    }
}
