//! The commands of `ira` in turn, on files: examples are judged, with questions and certificates too, one of which
//! is made here, and then what each way to run a ring wrote.
#![tactic(auto)]

use ira_event::{MemorySink, ToWriter};
use ira_main::{serve, start};
use ira_main_files::{CountingReader, FileShelf, ShelfFault, TextBuffer, TextSource};
use std::alloc::AllocError;
use std::io;
use std::io::{Stdin, Stdout, Write};
use std::process::ExitCode;
use std::rt::Files;
use std::sync::Wait;
use std::thread::Threads;
use std::time::Clock;

/// Serves the words of this line, and prints it, what it writes to standard error, and the status.
fn ira<R>(rt: &R, input: Stdin, mut out: Stdout, line: &str) -> io::Result<()>
where
    R: AllocGlobal + Files + Threads + Wait + Clock + Sync,
    R::File: Send + Sync,
    R::Dir: Send + Sync,
{
    println!(out; "$ ira {line}")?;
    let words: Vec<&str> = line.split_whitespace().collect(rt.alloc())?;
    let mut err = MemorySink::new(rt.alloc());
    let status = serve(
        rt,
        rt.alloc(),
        &words,
        &mut CountingReader::new(input),
        &mut FileShelf::new(rt, rt.alloc()),
        &mut ToWriter::new(out),
        &mut err,
    );
    if !err.bytes().is_empty() {
        println!(out; "on standard error:")?;
        out.write_all(err.bytes())?;
    }
    println!(out; "status {status}")
}

/// The files that a run of a ring of so many nodes wrote here.
fn written(rt: &(impl AllocGlobal + Files), nodes: u8) -> Result<Vec<Vec<u8>>, ShelfFault> {
    let shelf = FileShelf::new(rt, rt.alloc());
    let mut files = Vec::new(rt.alloc());
    for place in 0..nodes {
        let name = format!(in rt.alloc(); "{place}.log")?;
        let mut text = TextBuffer::new(rt.alloc());
        shelf.read(name.as_str(), &mut text)?;
        if files.push(text.bytes().to_vec(rt.alloc())?).is_err() {
            return Err(AllocError.into());
        }
    }
    Ok(files)
}

/// Serves the commands in turn.
fn commands<R>(rt: &R, input: Stdin, out: Stdout) -> io::Result<()>
where
    R: AllocGlobal + Files + Threads + Wait + Clock + Sync,
    R::File: Send + Sync,
    R::Dir: Send + Sync,
{
    ira(rt, input, out, "")?;
    ira(rt, input, out, "logs elected/0.log elected/1.log")?;
    ira(
        rt,
        input,
        out,
        "check --question=elected/two_leaders.ask --cert=elected/two_leaders.cert elected/0.log elected/1.log",
    )?;
    ira(
        rt,
        input,
        out,
        "check --question=elected/one_step_short.ask --cert=elected/one_step_short.cert elected/0.log elected/1.log",
    )?;
    ira(rt, input, out, "pairs 3")?;
    ira(
        rt,
        input,
        out,
        "decide --question=elected/one_step_short.ask --out=made.cert elected/0.log elected/1.log",
    )?;
    ira(
        rt,
        input,
        out,
        "check --question=elected/one_step_short.ask --cert=made.cert elected/0.log elected/1.log",
    )?;
    ira(
        rt,
        input,
        out,
        "decide --question=elected/one_step_short.ask --out=/dev/full elected/0.log elected/1.log",
    )?;
    ira(
        rt,
        input,
        out,
        "upgrade --out=. elected/0.log elected/1.log",
    )?;
    ira(rt, input, out, "logs 0.log elected/1.log")?;
    ira(
        rt,
        input,
        out,
        "show --leads=1 --at=1,0 elected/0.log elected/1.log",
    )?;
    ira(
        rt,
        input,
        out,
        "show --json --events elected/0.log elected/1.log",
    )?;
    ira(
        rt,
        input,
        out,
        "draw --out=ring.svg elected/0.log elected/1.log",
    )?;
    ira(
        rt,
        input,
        out,
        "draw --out=elected/../ring.svg --question=ring.svg elected/0.log elected/1.log",
    )?;
    ira(rt, input, out, "explain --json elected/1.log elected/0.log")?;
    ira(rt, input, out, "run --nodes=5 --seed=7 --out=.")?;
    let by_threads = written(rt, 5);
    ira(rt, input, out, "run --nodes=5 --seed=7 --out=. --alone")?;
    let by_one = written(rt, 5);
    println!(out;
        "the same logs: {}",
        by_threads.is_ok() && by_threads == by_one
    )?;
    ira(rt, input, out, "logs 0.log 1.log 2.log 3.log 4.log")?;
    ira(rt, input, out, "run --nodes=2 --seed=7 --draws=0 --out=.")?;
    ira(rt, input, out, "logs 0.log 1.log")?;
    ira(rt, input, out, "logs 0.log 5.log")?;
    ira(rt, input, out, "run --nodes=2 --seed=7 --out=elected/0.log")?;
    ira(
        rt,
        input,
        out,
        "run --nodes=2 --seed=7 --initiators=0 --out=.",
    )?;
    ira(rt, input, out, "logs")
}

/// After the commands, the program itself, on the words that it is given: one that isn't UTF-8.
fn main(rt: HostRuntime) -> ExitCode {
    let (input, out) = (rt.stdin(), rt.stdout());
    match commands(&rt, input, out) {
        Ok(()) => start(&rt, input, out, out),
        Err(_) => ExitCode::FAILURE,
    }
}
