// Loads, logs and setups that tests share, and what they look at in a run.
ghost use Rattle.std.specs.Prelude.{◌≡◌, ◌≤◌, true};
ghost use Rattle.ira_event.specs.Event.{is_load};

use ira_event::{Event, Load, Msg, NodeLog, RingSize};
use ira_ring::{NodeEnd, Run, Setup};
use std::alloc::Global;
use std::process::Abort;

pub fn clean(round: u32, id: u32, hop: u32) -> Load
    requires { (1 ≤ round) × (round ≤ 1000000) × (1 ≤ id) × (id ≤ 1000000) × (1 ≤ hop) × (hop ≤ 1000000) }
    ensures { is_load result ≡ true }
{
    Load::Msg(Msg {
        round,
        id,
        hop,
        dirty: false,
    })
}

/// A setup of a ring of so many nodes, of one term.
pub fn setup_of(
    rt: &(impl Abort + AllocGlobal),
    nodes: u8,
    initiators: &[bool],
    draws: &[&[u32]],
    cap: usize,
) -> Setup<Global> {
    let mut lists = Vec::new(rt.alloc());
    for ids in draws {
        let list = ids.to_vec(rt.alloc()).expect(rt, "memory");
        lists.push(list).expect(rt, "memory");
    }
    Setup {
        nodes: RingSize::new(nodes).expect(rt, "a ring of that size"),
        initiators: initiators.to_vec(rt.alloc()).expect(rt, "memory"),
        draws: lists,
        cap,
        terms: 1,
    }
}

/// Whether these are the events of the log.
pub fn has_events(log: &NodeLog<Global>, expected: &[Event]) -> bool {
    let mut events = log.events();
    for event in expected {
        if events.next() != Some(*event) {
            return false;
        }
    }
    events.next().is_none()
}

/// Whether these are the logs of the nodes, in their order.
fn has_logs(run: &Run<Global>, logs: &[&[Event]]) -> bool {
    let size = run.logs().size().get();
    if usize::from(size) != logs.len() {
        return false;
    }
    for place in 0..size {
        if !has_events(run.logs().log(place), logs[usize::from(place)]) {
            return false;
        }
    }
    true
}

pub fn assert_run(rt: &impl Abort, run: &Run<Global>, logs: &[&[Event]], ends: &[NodeEnd]) {
    let has_logs = has_logs(run, logs);
    let found = run.ends();
    assert!(rt; has_logs && found == ends, "{found:?}");
}
