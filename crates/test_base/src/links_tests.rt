//! Links between threads, and gates.
ghost use Rattle.std.specs.Prelude.{◌≡◌, ◌≤◌, true};
ghost use Rattle.ira_event.specs.Event.{is_load};

use ira_event::{Load, Msg};
use ira_links::{Closed, Frame, Gate, LinkIn, LinkOut, OpenGate, link, settle};
use std::alloc::Global;
use std::process::Abort;
use std::sync::Wait;
use std::test::*;
use std::thread::{self, join};
use std::time::{Clock, Duration};

// In milliseconds.
const A_WHILE: u64 = 200;

fn message(id: u32) -> Load
    requires { (1 ≤ id) × (id ≤ 1000000) }
    ensures { is_load result ≡ true }
{
    Load::Msg(Msg {
        round: 1,
        id,
        hop: 1,
        dirty: false,
    })
}

fn assert_in_order(rt: &(impl Abort + Wait + AllocGlobal)) {
    let frame = Frame::Load(message(1));
    let (mut output, mut input) = link(rt.alloc(), 2).expect(rt, "memory");
    let puts = [output.put(rt, frame), output.put(rt, Frame::Stop)];
    let taken = input.take(rt);
    let settled = settle(output, input);
    let counts = (settled.puts(), settled.takes());
    assert!(rt; (puts, taken, counts) == ([Ok(()), Ok(())], Ok(frame), (2, 1)));
}

fn assert_exhausted(rt: &(impl Abort + Wait + AllocGlobal)) {
    let (mut output, mut input) = link(rt.alloc(), 1).expect(rt, "memory");
    let mut are_equal = true;
    for id in 1..=1_000_000 {
        let frame = Frame::Load(message(id));
        are_equal = are_equal && output.put(rt, frame) == Ok(()) && input.take(rt) == Ok(frame);
    }
    let frame = Frame::Load(message(1));
    let refused = output.put(rt, frame);
    let settled = settle(output, input);
    let counts = (settled.puts(), settled.takes());
    assert!(rt; are_equal && refused == Err(frame) && counts == (1_000_000, 1_000_000));
}

#[test]
fn link_order_and_exhaustion(rt: HostRuntime) {
    assert_in_order(&rt);
    assert_exhausted(&rt);
}

// Puts three frames at once, and a Stop a while after.
fn put_four<R: Wait + Clock>(rt: &R, mut output: LinkOut<Global>) -> bool {
    let mut are_accepted = true;
    for id in 1..=3 {
        are_accepted = are_accepted && output.put(rt, Frame::Load(message(id))) == Ok(());
    }
    thread::sleep(rt, Duration::from_millis(A_WHILE));
    are_accepted && output.put(rt, Frame::Stop) == Ok(())
}

// Takes what `put_four` puts, and begins a while after it.
fn take_four<R: Wait + Clock>(rt: &R, mut input: LinkIn<Global>) -> bool {
    let mut are_equal = true;
    thread::sleep(rt, Duration::from_millis(A_WHILE));
    for id in 1..=3 {
        are_equal = are_equal && input.take(rt) == Ok(Frame::Load(message(id)));
    }
    are_equal && input.take(rt) == Ok(Frame::Stop)
}

#[test]
fn ends_wait_for_each_other(rt: HostRuntime) {
    let host = &rt;
    let (output, input) = link(rt.alloc(), 1).expect(host, "memory");
    let both = join(
        host,
        move || put_four(host, output),
        move || take_four(host, input),
    );
    assert_eq!(rt; both, (true, true));
}

/// Takes what comes first.
fn take_one<R: Wait>(rt: &R, mut input: LinkIn<Global>) -> Result<Frame, Closed> {
    input.take(rt)
}

/// Lets go of the end of a link after a while.
fn drop_later<R: Clock, T: Drop>(rt: &R, end: T) {
    thread::sleep(rt, Duration::from_millis(A_WHILE));
    drop(end);
}

#[test]
fn dropped_output_wakes_the_input(rt: HostRuntime) {
    let host = &rt;
    let (output, input) = link(rt.alloc(), 1).expect(host, "memory");
    let (taken, ()) = join(
        host,
        move || take_one(host, input),
        move || drop_later(host, output),
    );
    assert!(rt; taken == Err(Closed));
}

#[test]
fn dropped_input_wakes_the_output(rt: HostRuntime) {
    let host = &rt;
    let frame = Frame::Load(message(1));
    let (mut output, input) = link(rt.alloc(), 1).expect(host, "memory");
    let put = output.put(host, Frame::Stop);
    let (refused, ()) = join(
        host,
        move || output.put(host, frame),
        move || drop_later(host, input),
    );
    assert!(rt; (put, refused) == (Ok(()), Err(frame)));
}

fn enters<R: Wait + Clock, G: Gate>(rt: &R, gate: &G, who: u32) -> bool {
    gate.pass(rt, who);
    gate.admit(who)
}

#[test]
fn open_gate_holds_nobody(rt: HostRuntime) {
    for who in [0, 1, 63, u32::MAX] {
        assert!(rt; enters(&rt, &OpenGate, who), "{who}");
    }
}
