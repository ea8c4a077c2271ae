//! What words ask for.

use ira_main_cli::{Request, RunRequest, read_words};
use std::alloc::Global;
use std::process::Abort;

/// The ring that these words ask to run.
fn ring<'a>(rt: &impl Abort, alloc: Global, words: &'a [&'a str]) -> RunRequest<'a> {
    match read_words(alloc, words) {
        Ok(Request::Run(ring)) => ring,
        _ => panic!(rt; "no run is asked for"),
    }
}

#[test]
fn numbers_of_a_run(rt: HostRuntime) {
    let words = [
        "run",
        "--seed=18446744073709551615",
        "--nodes",
        "4294967298",
        "--out=d",
        "--draws=100000",
        "--cap",
        "4294967297",
        "--terms=4294967301",
        "--initiators=4294967299",
    ];
    let asked = ring(&rt, rt.alloc(), &words);
    assert_eq!(rt; asked.seed, u64::MAX);
    assert_eq!(rt; asked.nodes, 4_294_967_298);
    assert_eq!(rt; asked.folder, "d");
    assert_eq!(rt; asked.draws, 100_000);
    assert_eq!(rt; asked.cap, 4_294_967_297);
    assert_eq!(rt; asked.terms, 4_294_967_301);
    assert_eq!(rt; asked.initiators, Some(4_294_967_299));
    assert!(rt; !asked.is_alone);
}

#[test]
fn options_that_are_left_out(rt: HostRuntime) {
    let words = [
        "run",
        "--nodes=2",
        "--seed=4294967303",
        "--out",
        "a b",
        "--alone",
    ];
    let asked = ring(&rt, rt.alloc(), &words);
    assert_eq!(rt; asked.seed, 4_294_967_303);
    assert_eq!(rt; asked.folder, "a b");
    assert_eq!(rt; asked.draws, 64);
    assert_eq!(rt; asked.cap, 10_000);
    assert_eq!(rt; asked.terms, 1);
    assert_eq!(rt; asked.initiators, None);
    assert!(rt; asked.is_alone);
}
