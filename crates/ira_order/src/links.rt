ghost use Rattle.std.specs.Prelude.{◌≡◌, ◌↔◌, ℕ, Err, IsOk, MatchResult};
ghost use Rattle.ira_order.specs.declared.match_fault.MatchFault.{MatchFault};
ghost use Rattle.ira_order.specs.Matching.{IsPaired, Matches};
ghost use Rattle.ira_order.specs.MatchFault.{IsLinkFault, IsMatchFault};

use crate::match_fault::MatchFault;
use crate::ring::successor;
use ira_event::{Logs, NodeLog};
use std::alloc::Allocator;

/// Whether each receipt of a link has its sending, by one cursor for each of the two logs.
fn match_link<A: Allocator>(
    link: u8,
    writer: &NodeLog<A>,
    reader: &NodeLog<A>,
) -> Result<(), MatchFault>
    ensures { MatchResult result (λ _. (k : ℕ) → IsPaired writer.now.events reader.now.events k)
        (IsLinkFault link writer.now.events reader.now.events) }
{
    let mut sendings = writer.events();
    let mut receipts = reader.events();
    let mut k = 0;
    while let Some(receipt) = receipts.next_receipt() {
        k += 1;
        let Some(sending) = sendings.next_sending() else {
            return Err(MatchFault::NoSending { link, k });
        };
        if !sending.is(&receipt) {
            return Err(MatchFault::Differs { link, k });
        }
    }
    Ok(())
}

/// Whether each receipt has its sending: the k-th receipt of a link the k-th sending, of the same
/// message. It takes no memory.
pub fn match_links<A: Allocator>(logs: &Logs<A>) -> Result<(), MatchFault>
    ensures ok { IsOk result ↔ Matches logs.now }
    ensures fault { (f : MatchFault) → (result ≡ Err f) ↔ IsMatchFault logs.now f }
{
    let nodes = logs.size().get();
    for link in 0..nodes {
        let reader = successor(nodes, link);
        match_link(link, logs.log(link), logs.log(reader))?;
    }
    Ok(())
}
