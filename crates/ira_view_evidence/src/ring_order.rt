ghost use Rattle.std.specs.Prelude.{◌<◌, ◌↔◌, IfOk, IfSome, IsTrue, length};
ghost use Rattle.ira_view_evidence.specs.RingOrder.{IsRingOrder, StandsAt, Takes};

use ira_event::{Logs, NodeLog, OutOfMemory};
use ira_order::successor;
use std::alloc::Allocator;

/// Whether the receipts of a log are, one by one, the sendings of another, as far as they go.
pub fn takes_from<A: Allocator, B: Allocator>(reader: &NodeLog<A>, writer: &NodeLog<B>) -> bool
    ensures { IsTrue result ↔ Takes writer.now.events reader.now.events }
{
    let mut sendings = writer.events();
    let mut receipts = reader.events();
    while let Some(receipt) = receipts.next_receipt() {
        let Some(sending) = sendings.next_sending() else {
            return false;
        };
        if !sending.is(&receipt) {
            return false;
        }
    }
    true
}

/// Whether place `i` of the list, counted from 0, is one of the logs, none before it, and its node received what the one
/// before it sent, or of the first what the last one sent.
fn stands<A: Allocator>(logs: &Logs<A>, order: &[u8], i: usize) -> bool
    requires { i < length order.now }
    ensures { IsTrue result → StandsAt logs.now order.now i }
{
    let nodes = logs.size().get();
    let place = order[i];
    let writer = if i == 0 {
        order[order.len() - 1]
    } else {
        order[i - 1]
    };
    if place >= nodes || writer >= nodes || order[..i].contains(&place) {
        return false;
    }
    takes_from(logs.log(place), logs.log(writer))
}

/// Whether these places are those of the logs, each once, and each node received what the one before it sent, and the
/// first one what the last one sent.
fn is_ring_order<A: Allocator>(logs: &Logs<A>, order: &[u8]) -> bool
    ensures { IsTrue result → IsRingOrder logs.now order.now }
{
    if order.len() != usize::from(logs.size().get()) {
        return false;
    }
    for i in 0..order.len() {
        if !stands(logs, order, i) {
            return false;
        }
    }
    true
}

/// The places from 0 on, each after the greater one, and 0 first.
fn backwards<A: Allocator>(alloc: A, nodes: u8) -> Result<Vec<u8, A>, OutOfMemory> {
    let mut order = Vec::with_capacity(alloc, usize::from(nodes))?;
    order.push(0)?;
    for place in (1..nodes).rev() {
        order.push(place)?;
    }
    Ok(order)
}

/// The first place, after that of the writer and then round the ring, of a node that isn't in the list and received what
/// the writer sent.
fn next_reader<A: Allocator>(logs: &Logs<A>, listed: &[u8], writer: u8) -> Option<u8>
    requires { writer < length logs.now }
    ensures { IfSome result (λ place. place < length logs.now) }
{
    let nodes = logs.size().get();
    let mut place = writer;
    for _ in 1..nodes {
        place = successor(nodes, place);
        if !listed.contains(&place) && takes_from(logs.log(place), logs.log(writer)) {
            return Some(place);
        }
    }
    None
}

/// The places, each after the node whose sendings its receipts begin like.
fn by_receipts<A: Allocator, L: Allocator>(
    alloc: A,
    logs: &Logs<L>,
) -> Result<Vec<u8, A>, OutOfMemory> {
    let nodes = logs.size().get();
    let mut order = Vec::with_capacity(alloc, usize::from(nodes))?;
    let mut writer = 0;
    order.push(writer)?;
    for _ in 1..nodes {
        let Some(place) = next_reader(logs, &order, writer) else {
            break;
        };
        order.push(place)?;
        writer = place;
    }
    Ok(order)
}

/// An order of the places in which all links match, from place 0 on: the other way round, or by whose sendings each
/// node's receipts begin like. Nothing where none is found.
pub fn find_ring_order<A: Allocator + Clone, L: Allocator>(
    alloc: A,
    logs: &Logs<L>,
) -> Result<Option<Vec<u8, A>>, OutOfMemory>
    ensures { IfOk result (λ found. IfSome found (λ order. IsRingOrder logs.now order.items)) }
{
    let order = backwards(alloc.clone()?, logs.size().get())?;
    if is_ring_order(logs, &order) {
        return Ok(Some(order));
    }
    let order = by_receipts(alloc, logs)?;
    if is_ring_order(logs, &order) {
        return Ok(Some(order));
    }
    Ok(None)
}
