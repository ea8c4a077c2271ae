ghost use Rattle.std.specs.Prelude.{◌≡◌, ◌<◌, None, MatchOption, length};
ghost use Rattle.std.specs.List.{filter_map};
ghost use Rattle.ira_order.specs.Ring.{log_of, next, numbered};
ghost use Rattle.ira_order.specs.Matching.{sent, got};
ghost use Rattle.ira_view_evidence.specs.LinkSide.{load_on};
ghost use Rattle.ira_view_evidence.specs.Exchange.{IsNth, IsNthReceipt, IsNthSending};

use ira_event::{Event, Load, Logs, NodeLog};
use ira_order::{EventAt, successor};
use std::alloc::Allocator;

/// A load that an event sent or received.
#[derive(Clone, Copy, Debug, PartialEq, Eq)]
pub struct Exchange {
    pub at: EventAt,
    pub load: Load,
}

/// A side of a link.
#[derive(Clone, Copy)]
enum LinkSide {
    Sendings,
    Receipts,
}

impl LinkSide {
    /// The load of an event that is on this side of its link.
    fn load(self, event: Event) -> Option<Load>
        ensures { result ≡ load_on self event }
    {
        match (self, event) {
            (LinkSide::Sendings, Event::Sent(load)) => Some(load),
            (LinkSide::Receipts, Event::Got(load)) => Some(load),
            _ => None,
        }
    }
}

/// The `k`-th event of a node's log on this side of its link.
fn nth<A: Allocator>(place: u8, log: &NodeLog<A>, side: LinkSide, k: u32) -> Option<Exchange>
    ensures { MatchOption result (numbered (filter_map (load_on side) log.now.events) k ≡ None)
        (IsNth (load_on side) place log.now.events k) }
{
    let mut position = 0;
    let mut rank = 0;
    for event in log.events() {
        position += 1;
        if let Some(load) = side.load(event) {
            rank += 1;
            if rank == k {
                return Some(Exchange {
                    at: EventAt { place, position },
                    load,
                });
            }
        }
    }
    None
}

/// Sending `k` of a link, counted from 1: an event of the node whose link it is.
pub fn nth_sending<A: Allocator>(logs: &Logs<A>, link: u8, k: u32) -> Option<Exchange>
    requires { link < length logs.now }
    ensures { MatchOption result (numbered (sent (log_of logs.now link)) k ≡ None)
        (IsNthSending logs.now link k) }
{
    nth(link, logs.log(link), LinkSide::Sendings, k)
}

/// Receipt `k` of a link, counted from 1: an event of the node that the link leads to.
pub fn nth_receipt<A: Allocator>(logs: &Logs<A>, link: u8, k: u32) -> Option<Exchange>
    requires { link < length logs.now }
    ensures { MatchOption result (numbered (got (log_of logs.now (next (length logs.now) link))) k ≡ None)
        (IsNthReceipt logs.now link k) }
{
    let place = successor(logs.size().get(), link);
    nth(place, logs.log(place), LinkSide::Receipts, k)
}
