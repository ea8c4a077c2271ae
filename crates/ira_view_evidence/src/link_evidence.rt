ghost use Rattle.std.specs.Prelude.{◌≡◌, ◌<◌, Some, length};
ghost use Rattle.ira_event.specs.declared.load.Load.{Load};
ghost use Rattle.ira_order.specs.Matching.{got};
ghost use Rattle.ira_order.specs.MatchFault.{IsMatchFault};
ghost use Rattle.ira_order.specs.Ring.{log_of, next, numbered};
ghost use Rattle.ira_view_evidence.specs.Exchange.{IsNthReceipt};
ghost use Rattle.ira_view_evidence.specs.LinkEvidence.{IsLinkEvidence};

use crate::exchange::{Exchange, nth_receipt, nth_sending};
use ira_event::Logs;
use ira_order::MatchFault;
use std::alloc::Allocator;

/// What is wrong with a link: the receipt that a fault of matching names, and the sending with its number, where there
/// is one.
#[derive(Clone, Copy, Debug, PartialEq, Eq)]
pub struct LinkEvidence {
    pub receipt: Exchange,
    pub sending: Option<Exchange>,
}

/// Receipt `k` of a link that has as many.
fn known_receipt<A: Allocator>(logs: &Logs<A>, link: u8, k: u32) -> Exchange
    requires link { link < length logs.now }
    requires known { (load : Load)
        × (numbered (got (log_of logs.now (next (length logs.now) link))) k ≡ Some load) }
    ensures { IsNthReceipt logs.now link k result }
{
    match nth_receipt(logs, link, k) {
        Some(receipt) => receipt,
        None => unreachable!(),
    }
}

impl LinkEvidence {
    /// The two sides of a fault that logs have.
    pub fn of_fault<A: Allocator>(logs: &Logs<A>, fault: MatchFault) -> LinkEvidence
        requires { IsMatchFault logs.now fault }
        ensures { IsLinkEvidence logs.now fault result }
    {
        match fault {
            MatchFault::NoSending { link, k } => LinkEvidence {
                receipt: known_receipt(logs, link, k),
                sending: None,
            },
            MatchFault::Differs { link, k } => LinkEvidence {
                receipt: known_receipt(logs, link, k),
                sending: nth_sending(logs, link, k),
            },
        }
    }
}
