//! What the lone runner records is written, read back and judged a run.

use ira_audit::{Answer, audit_logs};
use ira_event::{Logs, MemorySink, RingSize, write_log};
use ira_ring::{Setup, run_alone};
use std::alloc::{AllocError, Global};
use std::process::Abort;
use std::test::Fail;

/// The texts of the logs of a ring.
fn texts_of(alloc: Global, logs: &Logs<Global>) -> Result<Vec<MemorySink<Global>>, Fail> {
    let mut texts = Vec::new(alloc);
    for place in 0..logs.size().get() {
        let mut text = MemorySink::new(alloc);
        write_log(logs.log(place), &mut text)?;
        texts.push(text)?;
    }
    Ok(texts)
}

/// The answer to these logs, once they are written.
fn answer_to(alloc: Global, logs: &Logs<Global>) -> Result<Answer, Fail> {
    let sinks = texts_of(alloc, logs)?;
    let texts: Vec<&[u8]> = sinks.iter().map(|sink| sink.bytes()).collect(alloc)?;
    Ok(audit_logs(alloc, &texts)?)
}

fn lists_of(alloc: Global, draws: &[&[u32]]) -> Result<Vec<Vec<u32>>, AllocError> {
    let mut lists = Vec::new(alloc);
    for ids in draws {
        lists.push(ids.to_vec(alloc)?)?;
    }
    Ok(lists)
}

fn setup_of(
    alloc: Global,
    nodes: u8,
    initiators: &[bool],
    draws: &[&[u32]],
    cap: usize,
) -> Result<Setup<Global>, Fail> {
    Ok(Setup {
        nodes: RingSize::new(nodes).ok_or("a ring of that size")?,
        initiators: initiators.to_vec(alloc)?,
        draws: lists_of(alloc, draws)?,
        cap,
        terms: 1,
    })
}

/// Runs a ring of so many nodes, and judges its logs.
fn assert_is_run(
    rt: &impl Abort,
    alloc: Global,
    nodes: u8,
    initiators: &[bool],
    draws: &[&[u32]],
    cap: usize,
) -> Result<(), Fail> {
    let setup = setup_of(alloc, nodes, initiators, draws, cap)?;
    let run = run_alone(alloc, &setup)?;
    assert_eq!(rt; answer_to(alloc, run.logs())?, Answer::Yes);
    Ok(())
}

#[test]
fn two_node_election(rt: HostRuntime) -> Result<(), Fail> {
    assert_is_run(&rt, rt.alloc(), 2, &[true, true], &[&[2], &[1]], 100)
}

#[test]
fn tie_then_win(rt: HostRuntime) -> Result<(), Fail> {
    assert_is_run(&rt, rt.alloc(), 2, &[true, true], &[&[1, 2], &[1, 1]], 100)
}

#[test]
fn lone_initiator(rt: HostRuntime) -> Result<(), Fail> {
    assert_is_run(
        &rt,
        rt.alloc(),
        3,
        &[true, false, false],
        &[&[1], &[], &[]],
        100,
    )
}

#[test]
fn draws_spent_on_both(rt: HostRuntime) -> Result<(), Fail> {
    assert_is_run(&rt, rt.alloc(), 2, &[true, true], &[&[1], &[1]], 100)
}

#[test]
fn full_logs_and_bad_setups(rt: HostRuntime) -> Result<(), Fail> {
    assert_is_run(&rt, rt.alloc(), 2, &[true, true], &[&[2], &[1]], 3)
}
