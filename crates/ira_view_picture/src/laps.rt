ghost use Rattle.std.specs.Prelude.{◌≡◌, ◌<◌, IfSome, length};

use crate::ring::load_at;
use crate::traffic::{Effect, Traffic, traffic_of};
use ira_event::{Logs, OutOfMemory};
use ira_order::{predecessor, successor};
use std::alloc::Allocator;

/// Which sendings of each link are part of a lap by which a node came to lead.
#[derive(Drop)]
pub(crate) struct Laps<A: Allocator> {
    links: Vec<Vec<bool, A>, A>,
}

/// A link's sending and receipt of one number, counted from 0.
#[derive(Clone, Copy)]
struct Delivery {
    link: u8,
    k: usize,
}

/// What laps are found in.
#[derive(Drop)]
struct Exchanges<'a, L: Allocator, A: Allocator> {
    logs: &'a Logs<L>,
    traffic: &'a [Traffic<A>],
    ghost traffic_of_all: { length traffic.now ≡ length logs.now },
}

impl<L: Allocator, A: Allocator + Clone> Exchanges<'_, L, A> {
    /// Whether a pair has both sides, and what was received is what was sent.
    fn is_matched(&self, pair: Delivery) -> bool
        requires { pair.link < length self.now.logs.now }
    {
        let reader = successor(self.logs.size().get(), pair.link);
        let sending = traffic_of(self.traffic, pair.link).sending(pair.k);
        let receipt = traffic_of(self.traffic, reader).receipt(pair.k);
        match (sending, receipt) {
            (Some(sending), Some(receipt)) => {
                load_at(self.logs, pair.link, sending)
                    == load_at(self.logs, reader, receipt.position)
            }
            _ => false,
        }
    }

    /// The pair whose receipt stands right before the sending of this one, where there is one.
    fn pair_before(&self, pair: Delivery) -> Option<Delivery>
        requires { pair.link < length self.now.logs.now }
        ensures { IfSome result (λ before. before.link < length self.now.logs.now) }
    {
        let node = traffic_of(self.traffic, pair.link);
        let sending = node.sending(pair.k)?;
        let k = node.receipt_at(sending.saturating_sub(1))?;
        Some(Delivery {
            link: predecessor(self.logs.size().get(), pair.link),
            k,
        })
    }

    /// The pairs of a lap from its last one back, once round the ring; nothing where it isn't whole or one of them
    /// doesn't match.
    fn lap(&self, alloc: A, last: Delivery) -> Result<Option<Vec<Delivery, A>>, OutOfMemory>
        requires { last.link < length self.now.logs.now }
    {
        let mut pairs = Vec::new(alloc);
        let mut pair = last;
        for _ in 1..self.logs.size().get() {
            if !self.is_matched(pair) {
                return Ok(None);
            }
            pairs.push(pair)?;
            match self.pair_before(pair) {
                Some(before) => pair = before,
                None => return Ok(None),
            }
        }
        if !self.is_matched(pair) {
            return Ok(None);
        }
        pairs.push(pair)?;
        Ok(Some(pairs))
    }
}

/// Whether member `k` is set.
fn is_set(flags: &[bool], k: usize) -> bool {
    k < flags.len() && flags[k]
}

fn set(flags: &mut [bool], k: usize) {
    if k < flags.len() {
        flags[k] = true;
    }
}

/// No laps yet.
fn no_laps<A: Allocator + Clone, T: Allocator>(
    alloc: A,
    traffic: &[Traffic<T>],
) -> Result<Vec<Vec<bool, A>, A>, OutOfMemory> {
    let mut links = Vec::with_capacity(alloc.clone()?, traffic.len())?;
    for node in traffic {
        links.push(vec![in alloc.clone()?; false; node.sendings.len()]?)?;
    }
    Ok(links)
}

impl<A: Allocator + Clone> Laps<A> {
    /// All of them.
    pub(crate) fn of<L: Allocator>(
        alloc: A,
        logs: &Logs<L>,
        traffic: &[Traffic<A>],
    ) -> Result<Laps<A>, OutOfMemory>
        requires { length traffic.now ≡ length logs.now }
    {
        let mut laps = Laps {
            links: no_laps(alloc.clone()?, traffic)?,
        };
        let exchanges = Exchanges { logs, traffic };
        for place in 0..logs.size().get() {
            laps.add_of_leader(&exchanges, &alloc, place)?;
        }
        Ok(laps)
    }

    /// Adds the laps by which a node came to lead.
    fn add_of_leader<L: Allocator>(
        &mut self,
        exchanges: &Exchanges<'_, L, A>,
        alloc: &A,
        place: u8,
    ) -> Result<(), OutOfMemory>
        requires { place < length exchanges.now.logs.now }
    {
        let link = predecessor(exchanges.logs.size().get(), place);
        let node = traffic_of(exchanges.traffic, place);
        for (k, receipt) in node.receipts.iter().enumerate() {
            if receipt.effect == Effect::Leads {
                if let Some(pairs) = exchanges.lap(alloc.clone()?, Delivery { link, k })? {
                    self.add(&pairs);
                }
            }
        }
        Ok(())
    }
}

impl<A: Allocator> Laps<A> {
    fn add(&mut self, pairs: &[Delivery]) {
        for pair in pairs {
            if let Some(flags) = self.links.get_mut(usize::from(pair.link)) {
                set(flags, pair.k);
            }
        }
    }

    /// Whether sending `k` of a link is part of one, counted from 0.
    pub(crate) fn contains(&self, link: u8, k: usize) -> bool {
        match self.links.get(usize::from(link)) {
            Some(flags) => is_set(flags, k),
            None => false,
        }
    }
}
