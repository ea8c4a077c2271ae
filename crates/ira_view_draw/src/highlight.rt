ghost use Rattle.ira_order.specs.Circle.{HasOrder};
ghost use Rattle.ira_order.specs.MatchFault.{IsMatchFault};
ghost use Rattle.ira_order.specs.FaultyEvent.{IsFirstFaultyEvent};
ghost use Rattle.ira_view_page.specs.Page.{AddedSome};

use ira_audit::{Reason, RefusedLogs};
use ira_event::{Logs, OutOfMemory};
use ira_node::StepFault;
use ira_order::{DirectDependencies, EventAt, FaultyEvent, MatchFault};
use ira_view_evidence::{CircleEvidence, LinkEvidence, Origin, origins};
use ira_view_page::Page;
use std::alloc::Allocator;

/// Why an event has a ring round it.
#[derive(Clone, Copy)]
pub(crate) enum Cause {
    /// It is the receipt that a link's fault names.
    Receipt(MatchFault),
    /// It is the sending with the number of that receipt.
    Sending(u32),
    /// It is a receipt at which a node is stuck.
    Waits,
    /// It is the event without a step that the answer names.
    NoStep(StepFault),
    /// It is one that happened before that one, and none before it.
    Begin(StepFault),
}

/// An event that the reason speaks of.
#[derive(Clone, Copy)]
pub(crate) struct Highlight {
    pub(crate) at: EventAt,
    pub(crate) cause: Cause,
}

/// Adds what is wrong with a receipt.
pub(crate) fn write_receipt<A: Allocator>(page: &mut Page<A>, fault: MatchFault)
    ensures { AddedSome page.old page.new }
{
    let (MatchFault::NoSending { k, .. } | MatchFault::Differs { k, .. }) = fault;
    page.words("receipt ");
    page.number(k as u64);
    match fault {
        MatchFault::NoSending { .. } => page.words(" has no sending"),
        MatchFault::Differs { .. } => page.words(" differs"),
    }
}

impl Cause {
    /// Whether its words stand left of the event.
    pub(crate) fn is_left(self) -> bool {
        matches!(self, Cause::Waits)
    }

    /// Adds why.
    pub(crate) fn write<A: Allocator>(self, page: &mut Page<A>)
        ensures { AddedSome page.old page.new }
    {
        match self {
            Cause::Receipt(fault) => write_receipt(page, fault),
            Cause::Sending(k) => {
                page.words("sending ");
                page.number(k as u64);
            }
            Cause::Waits => page.words("waits"),
            Cause::NoStep(fault) => page.fault(fault),
            Cause::Begin(fault) => {
                page.words("begin here: ");
                page.fault(fault);
            }
        }
    }
}

/// Both sides of a link's fault.
fn sides_of_fault<A: Allocator>(
    alloc: A,
    logs: &Logs<A>,
    fault: MatchFault,
) -> Result<Vec<Highlight, A>, OutOfMemory>
    requires { IsMatchFault logs.now fault }
{
    let (MatchFault::NoSending { k, .. } | MatchFault::Differs { k, .. }) = fault;
    let evidence = LinkEvidence::of_fault(logs, fault);
    let mut events = Vec::new(alloc);
    events.push(Highlight {
        at: evidence.receipt.at,
        cause: Cause::Receipt(fault),
    })?;
    if let Some(sending) = evidence.sending {
        events.push(Highlight {
            at: sending.at,
            cause: Cause::Sending(k),
        })?;
    }
    Ok(events)
}

/// The receipts of a circle.
fn stuck_receipts<A: Allocator>(
    alloc: A,
    evidence: &CircleEvidence<A>,
) -> Result<Vec<Highlight, A>, OutOfMemory> {
    let mut events = Vec::new(alloc);
    for stuck in &evidence.stuck {
        events.push(Highlight {
            at: stuck.receipt,
            cause: Cause::Waits,
        })?;
    }
    Ok(events)
}

/// The event without a step, and of these events those that happened before it.
fn named_events<A: Allocator>(
    alloc: A,
    named: FaultyEvent,
    origins: &[Origin],
) -> Result<Vec<Highlight, A>, OutOfMemory> {
    let mut events = Vec::new(alloc);
    events.push(Highlight {
        at: named.at,
        cause: Cause::NoStep(named.fault),
    })?;
    for origin in origins {
        if origin.happened_before {
            events.push(Highlight {
                at: origin.event.at,
                cause: Cause::Begin(origin.event.fault),
            })?;
        }
    }
    Ok(events)
}

/// The event without a step, which is the first that a node has, and those to begin with.
fn highlights_of_node<A: Allocator + Clone>(
    alloc: A,
    refused: &RefusedLogs<A>,
    named: FaultyEvent,
) -> Result<Vec<Highlight, A>, OutOfMemory>
    requires order { HasOrder refused.now.logs }
    requires named { IsFirstFaultyEvent refused.now.logs named }
{
    let ordered = DirectDependencies::new(alloc.clone()?, refused.logs())?;
    let origins = origins(alloc.clone()?, &ordered, refused.faulty_events(), named)?;
    named_events(alloc, named, &origins)
}

/// The events that the reason against logs speaks of.
pub(crate) fn highlights<A: Allocator + Clone>(
    alloc: A,
    refused: &RefusedLogs<A>,
) -> Result<Vec<Highlight, A>, OutOfMemory> {
    match refused.reason() {
        Reason::Match(fault) => sides_of_fault(alloc, refused.logs(), fault),
        Reason::Circle => match CircleEvidence::find(alloc.clone()?, refused.logs())? {
            Some(evidence) => stuck_receipts(alloc, &evidence),
            None => Ok(Vec::new(alloc)),
        },
        Reason::Replay {
            place,
            position,
            fault,
        } => {
            let at = EventAt { place, position };
            highlights_of_node(alloc, refused, FaultyEvent { at, fault })
        }
        _ => Ok(Vec::new(alloc)),
    }
}
