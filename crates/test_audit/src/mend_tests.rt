//! Logs of larger rings, mended.

use ira_event::Logs;
use ira_mend::mend;
use std::alloc::Global;
use test_fixtures::{bytes_of, logs_of, lone_initiator_texts};

/// The logs of the lone initiator's election in a ring of so many nodes, of which the one at this place, if there is
/// one, stopped after its receipt.
fn stopped_logs(alloc: Global, nodes: u8, stopped: u8) -> Option<Logs<Global>> {
    let mut texts = lone_initiator_texts(alloc, nodes).ok()?;
    if let Some(text) = texts.get_mut(usize::from(stopped)) {
        *text = format!(in alloc;
            "irlog 2\nnodes {nodes}\nplace {stopped}\nstart passive\nrecv 1 1 {stopped} clean\nend 1\n"
        ).ok()?;
    }
    let texts = bytes_of(alloc, &texts).ok()?;
    logs_of(alloc, &texts)
}

/// How many events of the node at this place can have happened then: a message that wasn't passed on comes to no node
/// after it, nor back to the first.
const fn count_left(nodes: u8, stopped: u8, place: u8) -> usize {
    if place == 0 && stopped >= nodes {
        3
    } else if place < stopped {
        2
    } else if place == stopped {
        1
    } else {
        0
    }
}

/// Whether these logs are mended to that many events of each.
fn are_left(alloc: Global, nodes: u8, stopped: u8) -> Option<bool> {
    let logs = stopped_logs(alloc, nodes, stopped)?;
    let mended = mend(alloc, &logs).ok()?;
    for place in 0..mended.size().get() {
        if mended.log(place).len() != count_left(nodes, stopped, place) {
            return Some(false);
        }
    }
    Some(mended.size().get() == nodes)
}

#[test]
fn node_stopped_in_a_ring(rt: HostRuntime) {
    for (nodes, stopped) in [(3, 1), (3, 2), (5, 4), (5, 5), (65, 2), (65, 64)] {
        assert!(rt;
            are_left(rt.alloc(), nodes, stopped) == Some(true),
            "{stopped} of {nodes}"
        );
    }
}
