//! Whether logs match, and their orders.
ghost use Rattle.std.specs.Prelude.{◌<◌, length};

use crate::samples::assert_shown;
use ira_event::{Event, Logs, NodeLog, RingSize};
use ira_order::{MatchFault, OrderFault, Ordered, find_order, match_links, order};
use std::alloc::Global;
use std::process::Abort;
use test_fixtures::{
    CIRCLE, ELECTION, EMPTY, EQUAL_PAIR_PASSED_ON_CLEAN, LONE_INITIATOR, RECEIPT_WITHOUT_SENDING,
    RECEIPTS_EXCHANGED, TIE, clean, logs_of, lone_initiator_logs,
};

/// Whether the places have each event of the reader once, and each receipt after its sending.
fn keeps_link(logs: &Logs<Global>, places: &[u8], writer: u8, reader: u8) -> bool
    requires { (writer < length logs.now) × (reader < length logs.now) }
{
    let mut writes = logs.log(writer).events();
    let mut reads = logs.log(reader).events();
    let mut on_link = 0_u32;
    for place in places {
        if *place == writer {
            if let Some(Event::Sent(_)) = writes.next() {
                on_link = on_link.saturating_add(1);
            }
        } else if *place == reader {
            match reads.next() {
                None => return false,
                Some(Event::Got(_)) => match on_link.checked_sub(1) {
                    None => return false,
                    Some(left) => on_link = left,
                },
                Some(_) => {}
            }
        }
    }
    reads.next().is_none()
}

/// Whether the places are an order of the logs.
fn is_order(logs: &Logs<Global>, places: &[u8]) -> bool {
    let nodes = logs.size().get();
    let mut kept = places.iter().all(|place| *place < nodes);
    for writer in 0..nodes {
        let reader = if writer + 1 < nodes { writer + 1 } else { 0 };
        kept = kept && keeps_link(logs, places, writer, reader);
    }
    kept
}

/// Whether a list of places is found that is an order of the logs.
fn are_listed(alloc: Global, logs: &Logs<Global>) -> bool {
    match find_order(alloc, logs) {
        Ok(places) => is_order(logs, &places),
        Err(_) => false,
    }
}

/// The same of the schedule.
fn are_ordered(alloc: Global, logs: &Logs<Global>) -> bool {
    match order(alloc, logs) {
        Ok(ordered) => is_order(ordered.logs(), ordered.schedule()),
        Err(_) => false,
    }
}

/// Whether the logs of these texts match, and have a list of places and a schedule.
fn answers(alloc: Global, texts: &[&[u8]]) -> Option<(Result<(), MatchFault>, bool, bool)> {
    let logs = logs_of(alloc, texts)?;
    Some((
        match_links(&logs),
        are_listed(alloc, &logs),
        are_ordered(alloc, &logs),
    ))
}

/// Compares that the logs match and have an order.
fn assert_ordered(rt: &(impl Abort + AllocGlobal), texts: &[&[u8]]) {
    let found = answers(rt.alloc(), texts);
    assert!(rt; found == Some((Ok(()), true, true)));
}

/// Why the logs of these texts have no order.
fn refusal(alloc: Global, texts: &[&[u8]]) -> Option<OrderFault> {
    let logs = logs_of(alloc, texts)?;
    order(alloc, &logs).err()
}

fn assert_refused(rt: &(impl Abort + AllocGlobal), texts: &[&[u8]], fault: OrderFault) {
    let refused = refusal(rt.alloc(), texts);
    assert!(rt; refused == Some(fault), "{refused:?}");
}

// Two nodes that both begin; the greater draw wins.
#[test]
fn two_node_election(rt: HostRuntime) {
    assert_ordered(&rt, &ELECTION);
}

// Two nodes that draw the same first, and then not.
#[test]
fn tie_then_win(rt: HostRuntime) {
    assert_ordered(&rt, &TIE);
}

/// What the first node passes on clean the second one receives so, and neither had to be.
#[test]
fn equal_pair_passed_on_clean(rt: HostRuntime) {
    assert_ordered(&rt, &EQUAL_PAIR_PASSED_ON_CLEAN);
}

#[test]
fn lone_initiator(rt: HostRuntime) {
    assert_ordered(&rt, &LONE_INITIATOR);
}

#[test]
fn empty_logs_meet_at_start(rt: HostRuntime) {
    assert_ordered(&rt, &EMPTY);
}

#[test]
fn circle_of_two(rt: HostRuntime) {
    assert_refused(&rt, &CIRCLE, OrderFault::Circle);
}

#[test]
fn receipts_exchanged(rt: HostRuntime) {
    let fault = OrderFault::Match(MatchFault::Differs { link: 1, k: 1 });
    assert_refused(&rt, &RECEIPTS_EXCHANGED, fault);
}

#[test]
fn receipt_without_sending(rt: HostRuntime) {
    let fault = OrderFault::Match(MatchFault::NoSending { link: 1, k: 2 });
    assert_refused(&rt, &RECEIPT_WITHOUT_SENDING, fault);
}

/// Of two logs of four events each: some counts, and which of some events happened before which.
fn asked_of_two(ordered: &Ordered<'_, Global>) -> Option<([u32; 5], [bool; 2])> {
    let logs = ordered.logs();
    if logs.size().get() != 2 || logs.log(0).len() != 4 || logs.log(1).len() != 4 {
        return None;
    }
    let counts = [
        ordered.count(0, 3, 1),
        ordered.count(0, 4, 1),
        ordered.count(1, 4, 0),
        ordered.count(1, 0, 0),
        ordered.count(1, 3, 0),
    ];
    let before = [ordered.before(1, 3, 0, 4), ordered.before(0, 3, 1, 4)];
    Some((counts, before))
}

/// The same of the order of the logs of these texts.
fn asked_of_texts(alloc: Global, texts: &[&[u8]]) -> Option<([u32; 5], [bool; 2])> {
    let logs = logs_of(alloc, texts)?;
    let ordered = order(alloc, &logs).ok()?;
    asked_of_two(&ordered)
}

#[test]
fn counts_of_two_node_election(rt: HostRuntime) {
    let asked = asked_of_texts(rt.alloc(), &ELECTION);
    assert!(rt;
        asked == Some(([2, 4, 2, 0, 2], [true, false])),
        "{asked:?}"
    );
}

/// Of the logs of the lone initiator in a ring of three or more: how many events of the second node and of the last one
/// happened before its third one, and how many counters are kept.
fn asked_of_lone(ordered: &Ordered<'_, Global>) -> Option<([u32; 2], usize)> {
    let logs = ordered.logs();
    if logs.size().get() < 3 || logs.log(0).len() != 3 {
        return None;
    }
    let counts = [
        ordered.count(0, 3, 1),
        ordered.count(0, 3, logs.size().get() - 1),
    ];
    Some((counts, ordered.stored()))
}

/// The same of a ring of so many nodes.
fn asked_of_ring(alloc: Global, nodes: u8) -> Option<([u32; 2], usize)> {
    let logs = lone_initiator_logs(alloc, 2, nodes)?;
    let ordered = order(alloc, &logs).ok()?;
    asked_of_lone(&ordered)
}

#[test]
fn counts_of_the_lone_initiator(rt: HostRuntime) {
    let asked = [asked_of_ring(rt.alloc(), 3), asked_of_ring(rt.alloc(), 255)];
    assert!(rt;
        asked == [Some(([2, 2], 9)), Some(([2, 2], 65_025))],
        "{asked:?}"
    );
}

/// How many counters the order of these logs keeps.
fn stored(alloc: Global, texts: &[&[u8]]) -> Option<usize> {
    let logs = logs_of(alloc, texts)?;
    let ordered = order(alloc, &logs).ok()?;
    Some(ordered.stored())
}

#[test]
fn stored_counters(rt: HostRuntime) {
    let counters = [
        stored(rt.alloc(), &ELECTION),
        stored(rt.alloc(), &TIE),
        stored(rt.alloc(), &LONE_INITIATOR),
        stored(rt.alloc(), &EMPTY),
    ];
    assert!(rt;
        counters == [Some(6), Some(14), Some(9), Some(0)],
        "{counters:?}"
    );
}

/// The log of a passive node of a ring of 64 that does so 500 times.
fn long_log(alloc: Global, place: u8, turn: [Event; 2]) -> Option<NodeLog<Global>> {
    let events = turn.repeat(alloc, 500).ok()?;
    NodeLog::new(1, RingSize::new(64)?, place, false, events)
}

/// The logs of a ring of 64 nodes, each of 1,000 events: one message goes round 500 times. Where node
/// 0 receives it first, nobody can begin.
fn long_logs(alloc: Global, begins: bool) -> Option<Logs<Global>> {
    let message = clean(1, 1, 1);
    let (got, sent) = (Event::Got(message), Event::Sent(message));
    let first = if begins { [sent, got] } else { [got, sent] };
    let mut logs = Vec::new(alloc);
    for place in 0..64 {
        let turn = if place == 0 { first } else { [got, sent] };
        logs.push(long_log(alloc, place, turn)?).ok()?;
    }
    Logs::gather(logs).ok()
}

/// How many events the order of these places has, where it is one of the logs.
fn count_places(logs: &Logs<Global>, places: &[u8]) -> usize {
    if is_order(logs, places) {
        places.len()
    } else {
        0
    }
}

/// Whether these logs match, and how many events their schedule has, or why they have none.
fn count_ordered(
    alloc: Global,
    begins: bool,
) -> Option<(Result<(), MatchFault>, Result<usize, OrderFault>)> {
    let logs = long_logs(alloc, begins)?;
    let count = match order(alloc, &logs) {
        Ok(ordered) => Ok(count_places(&logs, ordered.schedule())),
        Err(fault) => Err(fault),
    };
    Some((match_links(&logs), count))
}

#[test]
fn ring_of_64_with_1000_events_a_node(rt: HostRuntime) {
    let found = [
        count_ordered(rt.alloc(), true),
        count_ordered(rt.alloc(), false),
    ];
    let wanted = [
        Some((Ok(()), Ok(64_000))),
        Some((Ok(()), Err(OrderFault::Circle))),
    ];
    assert!(rt; found == wanted, "{found:?}");
}

#[test]
fn words_of_faults(rt: HostRuntime) {
    for (fault, words) in [
        (
            OrderFault::Match(MatchFault::NoSending { link: 1, k: 2 }),
            "link 1: receipt 2 has no sending",
        ),
        (
            OrderFault::Match(MatchFault::Differs { link: 1, k: 1 }),
            "link 1: receipt 1 differs",
        ),
        (OrderFault::Circle, "circle"),
        (OrderFault::OutOfMemory, "out of memory"),
    ] {
        assert_shown(&rt, &fault, words);
    }
}
