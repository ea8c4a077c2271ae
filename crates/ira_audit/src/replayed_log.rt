ghost use Rattle.std.specs.Prelude.{◌≡◌, ◌<◌, ◌≤◌, ℕ, List, None, IfOk, OnOk, length};
ghost use Rattle.ira_event.specs.LogText.{head_of};
ghost use Rattle.ira_event.specs.LogTextFault.{RecordsRead};
ghost use Rattle.ira_event.specs.Logs.{AreLogs};
ghost use Rattle.ira_order.specs.FaultyEvent.{AreFirstFaultyEvents};
ghost use Rattle.ira_node.specs.declared.node_state.NodeState.{NodeState};
ghost use Rattle.ira_audit.specs.Replaying.{HasKept, ReplayGives};
ghost use Rattle.ira_audit.specs.RingAudit.{IsReading};

use crate::link_lines::LinkLines;
use ira_event::{
    Event, Load, LogFault, Msg, NodeLog, OutOfMemory, PackedEvents, Records, RingSize, SentLine,
    open_log,
};
use ira_node::{Handling, NodeState};
use ira_order::{EventAt, FaultyEvent};
use ira_replay::ReplayFault;
use std::alloc::Allocator;
use std::marker::Model;

/// A log, and its first event without a step, if it has one. Contracts see the log.
#[derive(Drop)]
pub(crate) struct ReplayedLog<A: Allocator> {
    log: NodeLog<A>,
    first_fault: Option<ReplayFault>,
}

impl<A: Allocator> Model for ReplayedLog<A> {
    ghost use Rattle.ira_event.specs.Log.{Log};
    ghost use Rattle.ira_audit.specs.ReplayedLogs.{IsReplayed};

    ghost Value = { Log };

    ghost view = { λ r. r.log };

    ghost invariant = { λ r. IsReplayed r.log r.first_fault };
}

impl<A: Allocator> ReplayedLog<A> {
    /// The log of a text, or the text's fault. The log is replayed while it is read, after that of the node before it.
    pub(crate) fn read(
        alloc: A,
        text: &[u8],
        link: &mut LinkLines<A>,
    ) -> Result<ReplayedLog<A>, LogFault>
        ensures { IsReading text.now result }
    {
        let (head, records) = open_log(text)?;
        link.go_on();
        let (events, first_fault) = read_and_replay(
            alloc,
            head.nodes,
            head.initiator,
            records,
            link,
        )?;
        let log = NodeLog::of_records(head, events);
        Ok(ReplayedLog { log, first_fault })
    }

    /// How many nodes the ring of the log has.
    pub(crate) fn nodes(&self) -> RingSize
        ensures { result ≡ self.now.nodes }
    {
        self.log.nodes()
    }

    /// What is left of the log without its events, which takes no memory.
    pub(crate) fn without_events(self, alloc: A) -> ReplayedLog<A>
        ensures { head_of result ≡ head_of self }
    {
        let ReplayedLog { log, .. } = self;
        let events = Vec::new(alloc);
        let head = NodeLog::of_parts(
            log.version(),
            log.nodes(),
            log.place(),
            log.initiator(),
            events,
        );
        ReplayedLog {
            log: head,
            first_fault: None,
        }
    }
}

/// The events of all records, none of which was read yet, and the first of them without a step, with its fault, if there
/// is one.
#[inline(never)]
fn read_and_replay<A: Allocator>(
    alloc: A,
    nodes: RingSize,
    initiator: bool,
    records: Records<'_>,
    link: &mut LinkLines<A>,
) -> Result<(PackedEvents<A>, Option<ReplayFault>), LogFault>
    requires { records.count ≡ 0 }
    ensures read { RecordsRead records.entry.version (λ found. found.0) result records.entry.rest }
    ensures replay { IfOk result (λ found. ReplayGives nodes initiator found.0 found.1) }
{
    let mut records = records;
    let mut events = PackedEvents::with_room_for(alloc, &records)?;
    let mut state = NodeState::first(initiator);
    let mut first_fault = None;
    loop {
        if first_fault.is_none() && state.owed.is_none() {
            read_known(nodes, &mut state, &mut records, &mut events, link)?;
        }
        let before = records.rest();
        let Some(event) = records.next_event()? else {
            return Ok((events, first_fault));
        };
        if first_fault.is_none() {
            match state.advance(nodes, &event) {
                Ok(()) => {}
                Err(fault) => {
                    let position = records.count() as u32;
                    first_fault = Some(ReplayFault { position, fault });
                }
            }
        }
        events.push(event)?;
        link.note(nodes, before, &records, &event)?;
    }
}

/// Reads and replays on while the next records are receipts of what the node before sent, each passed on at once or
/// purged: nearly all records are, and the lines tell it without their numbers.
#[inline(never)]
fn read_known<A: Allocator>(
    nodes: RingSize,
    state: &mut NodeState,
    records: &mut Records<'_>,
    events: &mut PackedEvents<A>,
    link: &mut LinkLines<A>,
) -> Result<(), OutOfMemory>
    requires { state.old.owed ≡ None }
    ensures shorter { OnOk result (length records.new.rest ≤ length records.old.rest) }
    ensures kept { OnOk result ((version : ℕ) (text : List ℕ) (first : NodeState)
        → HasKept version text nodes first records.old events.old state.old None
        → HasKept version text nodes first records.new events.new state.new None) }
{
    let phase = state.phase;
    let known = link.known;
    let mut received = link.received;
    let mut sent = link.sent;
    let lines: &mut [SentLine] = &mut link.lines;
    let mut left = Records::new(records.version(), records.rest(), records.count());
    while received < known
        && let Some(line) = lines.get_mut(received)
    {
        let message = line.message();
        match phase.handling(nodes, &message) {
            Some(Handling::Passes) => {
                if !left.next_receipt(line) {
                    break;
                }
                events.push(Event::Got(Load::Msg(message)))?;
                let passed = Load::Msg(Msg {
                    hop: message.hop + 1,
                    ..message
                });
                received += 1;
                if !left.next_passed(line) {
                    state.owed = Some(passed);
                    break;
                }
                events.push(Event::Sent(passed))?;
                sent = keep_sent(lines, sent, received - 1);
            }
            Some(Handling::Purges) => {
                if !left.next_receipt(line) {
                    break;
                }
                events.push(Event::Got(Load::Msg(message)))?;
                received += 1;
            }
            None => break,
        }
    }
    *records = left;
    link.received = received;
    link.sent = sent;
    Ok(())
}

/// Puts the line that stands there where the next one that was sent has its place, unless that comes after it, and gives
/// how many were sent.
#[inline(always)]
fn keep_sent(lines: &mut [SentLine], sent: usize, at: usize) -> usize
    requires { at < length lines.old }
{
    if sent > at {
        return sent;
    }
    lines.swap(sent, at);
    sent + 1
}

/// The logs, and, where they are those of a ring, their first events without a step.
pub(crate) fn split_replayed<A: Allocator + Clone>(
    replayed: Vec<ReplayedLog<A>, A>,
) -> Result<(Vec<NodeLog<A>, A>, Vec<FaultyEvent, A>), OutOfMemory>
    ensures { IfOk result (λ found. (found.0.items ≡ replayed.items)
        × (AreLogs replayed.items → AreFirstFaultyEvents replayed.items found.1.items)) }
{
    let alloc = replayed.allocator().clone()?;
    let mut logs = Vec::with_capacity(alloc.clone()?, replayed.len())?;
    let mut faulty_events = Vec::new(alloc);
    for read in replayed {
        let ReplayedLog { log, first_fault } = read;
        let place = log.place();
        logs.push(log)?;
        if let Some(ReplayFault { position, fault }) = first_fault {
            let at = EventAt { place, position };
            faulty_events.push(FaultyEvent { at, fault })?;
        }
    }
    Ok((logs, faulty_events))
}
