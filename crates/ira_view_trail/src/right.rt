ghost use Rattle.std.specs.Prelude.{◌≡◌, ◌<◌, ◌^◌, ℕ, IfOk, IsTrue, is_some, length, slice_index, sum_by};
ghost use Rattle.ira_order.specs.Circle.{HasOrder};
ghost use Rattle.ira_view_trail.specs.Right.{AreLinksRight, AreRows, HasPicked, HasRows, IsLinkRight, IsRow, load_at};

use crate::columns::Columns;
use ira_event::{Event, Logs, NodeLog, OutOfMemory};
use ira_order::{OrderFault, find_order, successor};
use std::alloc::Allocator;

/// Whether a node's columns rise, those of the events that are held left of the line and all others right of it.
fn is_row(row: &[u32], events: usize, held: u32, line: u32) -> bool
    ensures { IsTrue result → IsRow events held line row.now }
{
    let mut last = 0;
    for k in 0..row.len() {
        let column = row[k];
        if column <= last {
            return false;
        }
        if k < held as usize {
            if column >= line {
                return false;
            }
        } else if column <= line {
            return false;
        }
        last = column;
    }
    row.len() == events
}

/// Whether the columns of each node do.
pub(crate) fn are_rows<L: Allocator, A: Allocator>(
    logs: &Logs<L>,
    cut: &[u32],
    columns: &Columns<A>,
) -> bool
    requires cut { length cut.now ≡ length logs.now }
    ensures few { IsTrue result → sum_by length columns.now.nodes < 2 ^ 32 }
    ensures rows { IsTrue result → AreRows logs.now cut.now columns.now.line columns.now.nodes }
{
    let size = logs.size().get();
    if columns.nodes.len() != usize::from(size) {
        return false;
    }
    for place in 0..size {
        let row = columns.row(place);
        let events = logs.log(place).len();
        let held = cut[usize::from(place)];
        if !is_row(row, events, held, columns.line) {
            return false;
        }
    }
    true
}

/// What a link has of a log.
#[derive(Clone, Copy)]
enum End {
    Sendings,
    Receipts,
}

impl End {
    /// Whether a link has this event.
    fn has(self, event: Event) -> bool
        ensures { result ≡ is_some (load_at self event) }
    {
        match self {
            End::Sendings => matches!(event, Event::Sent(_)),
            End::Receipts => matches!(event, Event::Got(_)),
        }
    }
}

/// The columns of what a link has of a log, one after the other.
fn columns_at<L: Allocator, A: Allocator>(
    alloc: A,
    log: &NodeLog<L>,
    row: &[u32],
    end: End,
) -> Result<Vec<u32, A>, OutOfMemory>
    requires { length row.now ≡ length log.now.events }
    ensures { IfOk result (λ picked. HasPicked (load_at end) log.now.events row.now (length log.now.events) picked.items) }
{
    let mut picked = Vec::with_capacity(alloc, log.len())?;
    for done in 0..log.len() {
        let event = log.event(done as u32 + 1);
        if !end.has(event) {
            continue;
        }
        picked.push(row[done])?;
    }
    Ok(picked)
}

/// Whether each receipt's column is right of that of the sending of its number.
fn are_less(sendings: &[u32], receipts: &[u32]) -> bool
    ensures { IsTrue result → (k : ℕ) → k < length sendings.now → k < length receipts.now
        → slice_index sendings.now k < slice_index receipts.now k }
{
    for k in 0..sendings.len().min(receipts.len()) {
        if receipts[k] <= sendings[k] {
            return false;
        }
    }
    true
}

/// Whether each receipt of a link is right of its sending.
fn is_link_right<L: Allocator, A: Allocator + Clone>(
    alloc: A,
    logs: &Logs<L>,
    columns: &Columns<A>,
    link: u8,
) -> Result<bool, OutOfMemory>
    requires link { link < length logs.now }
    requires rows { HasRows logs.now columns.now.nodes }
    ensures { IfOk result (λ yes. IsTrue yes → IsLinkRight logs.now columns.now link) }
{
    let reader = successor(logs.size().get(), link);
    let sendings = columns_at(
        alloc.clone()?,
        logs.log(link),
        columns.row(link),
        End::Sendings,
    )?;
    let receipts = columns_at(alloc, logs.log(reader), columns.row(reader), End::Receipts)?;
    Ok(are_less(sendings.as_slice(), receipts.as_slice()))
}

/// Whether logs have no order of all their events.
fn has_no_order<A: Allocator + Clone>(alloc: A, logs: &Logs<A>) -> Result<bool, OutOfMemory>
    ensures { IfOk result (λ yes. IsTrue yes → ¬ (HasOrder logs.now)) }
{
    match find_order(alloc, logs) {
        Ok(_) => Ok(false),
        Err(OrderFault::Match(_)) => Ok(true),
        Err(OrderFault::Circle) => Ok(true),
        Err(OrderFault::OutOfMemory) => Err(OutOfMemory),
    }
}

/// Whether each receipt is right of its sending, where logs have an order.
pub(crate) fn are_links_right<A: Allocator + Clone>(
    alloc: A,
    logs: &Logs<A>,
    columns: &Columns<A>,
) -> Result<bool, OutOfMemory>
    requires { HasRows logs.now columns.now.nodes }
    ensures { IfOk result (λ yes. IsTrue yes → HasOrder logs.now → AreLinksRight logs.now columns.now) }
{
    for link in 0..logs.size().get() {
        let is_right = is_link_right(alloc.clone()?, logs, columns, link)?;
        if !is_right {
            return has_no_order(alloc, logs);
        }
    }
    Ok(true)
}
