ghost use Rattle.std.specs.Prelude.{◌≡◌, ◌<◌, IfOk, length};
ghost use Rattle.ira_order.specs.MatchFault.{IsMatchFault};
ghost use Rattle.ira_order.specs.Matching.{got, sent};
ghost use Rattle.ira_order.specs.Ring.{log_of, next};
ghost use Rattle.ira_view_evidence.specs.LinkEvidence.{IsLinkEvidence};
ghost use Rattle.ira_view_explain.specs.Besides.{IsBesides, stop_before};
ghost use Rattle.ira_view_explain.specs.RingHint.{Fits};

use crate::link_hint::LinkHint;
use crate::ring_files::RingFiles;
use ira_event::{Logs, OutOfMemory};
use ira_order::{FaultyEvent, MatchFault, successor};
use ira_view_evidence::{Exchange, LinkEvidence, LinkSides};
use ira_view_page::file_of;
use std::alloc::Allocator;

/// A link with a receipt that doesn't match.
#[derive(Drop)]
pub(crate) struct FaultyLink<'a, 'l, A: Allocator> {
    pub(crate) alloc: &'l A,
    pub(crate) logs: &'a Logs<A>,
    /// Its writer's place.
    pub(crate) link: u8,
    /// Its reader's place.
    pub(crate) reader: u8,
    pub(crate) writer_file: &'a str,
    pub(crate) reader_file: &'a str,
    /// The number of the receipt.
    pub(crate) k: u32,
    pub(crate) receipt: Exchange,
    /// The sending of that number, where there is one.
    pub(crate) sending: Option<Exchange>,
    /// The event without a step that is told besides.
    pub(crate) other: Option<FaultyEvent>,
    /// Whether it came before the receipt or the sending in the log of one of the link's nodes.
    pub(crate) came_before: bool,
    /// All that its nodes recorded of it.
    pub(crate) sides: LinkSides<&'l A>,
    /// The usual causes that explain it.
    pub(crate) causes: Vec<LinkHint<'a, &'l A>, &'l A>,
    ghost writer_is_there: { link < length logs.now },
    ghost reader_is_there: { reader < length logs.now },
    ghost reader_is_next: { reader ≡ next (length logs.now) link },
    ghost is_faulty: { ¬ (Fits logs.now link) },
    ghost sent_is: { sides.sent.items ≡ sent (log_of logs.now link) },
    ghost received_is: { sides.received.items ≡ got (log_of logs.now reader) },
}

/// The link and the receipt that a fault names.
fn receipt_of<A: Allocator>(logs: &Logs<A>, fault: MatchFault) -> (u8, u32)
    requires { IsMatchFault logs.now fault }
    ensures place { result.0 < length logs.now }
    ensures fault { ¬ (Fits logs.now result.0) }
{
    match fault {
        MatchFault::NoSending { link, k } | MatchFault::Differs { link, k } => (link, k),
    }
}

/// Of these events the one that comes before this sending or receipt in the log of its node.
fn stop_before(faulty: &[FaultyEvent], exchange: Option<Exchange>) -> Option<FaultyEvent>
    ensures { result ≡ stop_before faulty.now exchange }
{
    let at = exchange?.at;
    faulty
        .iter()
        .find(|stop| stop.at.place == at.place && stop.at.position < at.position)
        .copied()
}

impl<'a, 'l, A: Allocator + Clone> FaultyLink<'a, 'l, A> {
    /// The one that a fault of the logs names.
    pub(crate) fn of_fault(
        ring: &RingFiles<'a, 'l, A>,
        fault: MatchFault,
        faulty: &[FaultyEvent],
    ) -> Result<FaultyLink<'a, 'l, A>, OutOfMemory>
        requires { IsMatchFault ring.now.logs.now fault }
        ensures sides { IfOk result (λ link. IsLinkEvidence ring.now.logs.now fault
            (record { receipt = link.receipt; sending = link.sending })) }
        ensures logs { IfOk result (λ link. link.logs.now ≡ ring.now.logs.now) }
        ensures besides { IfOk result (λ link.
            IsBesides faulty.now link.receipt link.sending link.other link.came_before) }
    {
        let logs = ring.logs;
        let LinkEvidence { receipt, sending } = LinkEvidence::of_fault(logs, fault);
        let (link, k) = receipt_of(logs, fault);
        let reader = successor(logs.size().get(), link);
        let sides = LinkSides::of_link(ring.alloc, logs, link)?;
        let earlier = stop_before(faulty, sending).or(stop_before(faulty, Some(receipt)));
        let mut link = FaultyLink {
            alloc: ring.alloc,
            logs,
            link,
            reader,
            writer_file: file_of(ring.files, link),
            reader_file: file_of(ring.files, reader),
            k,
            receipt,
            sending,
            other: earlier.or(faulty.first().copied()),
            came_before: earlier.is_some(),
            sides,
            causes: Vec::new(ring.alloc),
        };
        link.causes = link.find_causes()?;
        Ok(link)
    }
}
