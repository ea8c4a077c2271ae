ghost use Rattle.std.specs.Prelude.{◌≡◌, ◌+◌, ◌<◌, ◌≤◌, ◌↔◌, IfErr, IfOk, IsOk, IsTrue, OnOk, Some, length, take};
ghost use Rattle.ira_event.specs.declared.load.Load.{Load};
ghost use Rattle.ira_order.specs.Cut.{IsConsistentCut, IsCut};
ghost use Rattle.ira_order.specs.Matching.{Matches, sent};
ghost use Rattle.ira_order.specs.Ring.{log_of, numbered, prev};
ghost use Rattle.ira_view_evidence.specs.Exchange.{IsNthSending};
ghost use Rattle.ira_view_moment.specs.CutFault.{HoldsSendings, IsCutFault, IsLackOf};
ghost use Rattle.ira_view_moment.specs.Moment.{whole_cut};

use crate::cut_fault::CutFault;
use ira_event::{Event, Logs, NodeLog, OutOfMemory};
use ira_order::predecessor;
use ira_view_evidence::{Exchange, nth_receipt, nth_sending};
use std::alloc::Allocator;

/// Whether there is a number for each node, at most as many as its events.
fn is_cut<A: Allocator>(logs: &Logs<A>, cut: &[u32]) -> bool
    ensures { IsTrue result ↔ IsCut logs.now cut.now }
{
    let size = logs.size().get();
    if cut.len() != usize::from(size) {
        return false;
    }
    for place in 0..size {
        if cut[usize::from(place)] as usize > logs.log(place).len() {
            return false;
        }
    }
    true
}

/// How many of the first events of a log are sendings.
fn sendings_among<A: Allocator>(log: &NodeLog<A>, events: u32) -> u32
    requires { events ≤ length log.now.events }
    ensures value { result ≡ length (sent (take events log.now.events)) }
    ensures few { result ≤ events }
{
    let mut sendings = 0;
    for k in 0..events {
        if let Event::Sent(_) = log.event(k + 1) {
            sendings += 1;
        }
    }
    sendings
}

/// Sending `k` of a link that has as many.
fn known_sending<A: Allocator>(logs: &Logs<A>, link: u8, k: u32) -> Exchange
    requires link { link < length logs.now }
    requires known { (load : Load) × (numbered (sent (log_of logs.now link)) k ≡ Some load) }
    ensures { IsNthSending logs.now link k result }
{
    match nth_sending(logs, link, k) {
        Some(sending) => sending,
        None => unreachable!(),
    }
}

/// Whether the cut holds the sending of each receipt of a node that it holds.
fn check_receipts<A: Allocator>(logs: &Logs<A>, cut: &[u32], reader: u8) -> Result<(), CutFault>
    requires matches { Matches logs.now }
    requires cut { IsCut logs.now cut.now }
    requires reader { reader < length logs.now }
    ensures ok { OnOk result (HoldsSendings logs.now cut.now (prev (length logs.now) reader)) }
    ensures err { IfErr result (IsLackOf logs.now cut.now reader) }
{
    let writer = predecessor(logs.size().get(), reader);
    let k = sendings_among(logs.log(writer), cut[usize::from(writer)]) + 1;
    let held = cut[usize::from(reader)];
    match nth_receipt(logs, writer, k) {
        Some(receipt) if receipt.at.position <= held => {
            let sending = known_sending(logs, writer, k);
            Err(CutFault::LacksSending {
                receipt: receipt.at,
                sending: sending.at,
            })
        }
        _ => Ok(()),
    }
}

/// The cut that holds all events of the logs: how many each of them has.
pub fn cut_at_end<A: Allocator>(alloc: A, logs: &Logs<A>) -> Result<Vec<u32, A>, OutOfMemory>
    ensures value { IfOk result (λ cut. cut.items ≡ whole_cut logs.now) }
    ensures cut { IfOk result (λ cut. IsConsistentCut logs.now cut.items) }
{
    let size = logs.size().get();
    let mut cut = Vec::with_capacity(alloc, usize::from(size))?;
    for place in 0..size {
        cut.push(logs.log(place).len() as u32)?;
    }
    Ok(cut)
}

/// Whether numbers of events, one after the other for the nodes of the ring, are a consistent cut of its logs. It takes no
/// memory.
pub fn check_cut<A: Allocator>(logs: &Logs<A>, cut: &[u32]) -> Result<(), CutFault>
    requires { Matches logs.now }
    ensures ok { IsOk result ↔ IsConsistentCut logs.now cut.now }
    ensures fault { IfErr result (IsCutFault logs.now cut.now) }
{
    if !is_cut(logs, cut) {
        return Err(CutFault::NoCut);
    }
    for reader in 0..logs.size().get() {
        check_receipts(logs, cut, reader)?;
    }
    Ok(())
}
