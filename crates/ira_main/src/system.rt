ghost use Rattle.std.specs.Prelude.{◌≤◌, IfOk};
ghost use Rattle.std.specs.Process.{exit_status};

use crate::program::serve;
use crate::program_fault::{ProgramFault, report_outcome};
use ira_event::{Sink, ToWriter, write_bytes};
use ira_main_files::{CountingReader, FileShelf, PipedWriter};
use std::alloc::{AllocError, Global};
use std::io::{ErrorKind, IsTerminal, Read, Write};
use std::process::ExitCode;
use std::rt::{Env, Files};
use std::sync::Wait;
use std::thread::Threads;
use std::time::Clock;

// The words after the program's name.
fn words_given<R: AllocGlobal + Env>(rt: &R) -> Result<Vec<String>, ProgramFault<'static, Global>> {
    match std::env::args(rt) {
        Ok(words) => Ok(words.skip(1).collect(rt.alloc())?),
        Err(error) if error.kind() == ErrorKind::OutOfMemory => Err(ProgramFault::OutOfMemory),
        Err(_) => Err(ProgramFault::WordIsNoText),
    }
}

/// What is said where someone may wait for an answer.
const WAITS: &[u8] =
    b"ira: reads the log of one node, which you type or paste here; `ira guide` has the commands\n";

fn borrowed(alloc: Global, words: &[String]) -> Result<Vec<&str>, AllocError> {
    words.iter().map(|word| word.as_str()).collect(alloc)
}

fn serve_system<R, I, W, V>(
    rt: &R,
    input: I,
    out: W,
    err: &mut V,
) -> Result<u8, ProgramFault<'static, Global>>
where
    R: AllocGlobal + Env + Files + Threads + Wait + Clock + Sync,
    R::File: Send + Sync,
    R::Dir: Send + Sync,
    I: Read + IsTerminal + Drop,
    W: Write + Drop,
    V: Sink,
    ensures { IfOk result (λ status. status ≤ 3) }
{
    let alloc = rt.alloc();
    let given = words_given(rt)?;
    let words = borrowed(alloc, &given)?;
    if words.is_empty() && input.is_terminal() {
        let _ = write_bytes(WAITS, err);
    }
    Ok(serve(
        rt,
        alloc,
        &words,
        &mut CountingReader::new(input),
        &mut FileShelf::new(rt, alloc),
        &mut ToWriter::new(PipedWriter::new(out)),
        err,
    ))
}

/// Serves the words and the files of the system, over these streams. The status is 0 to 3, that of the answer also where
/// the reader of `out` has gone away.
pub fn start<R, I, W, V>(rt: &R, input: I, out: W, err: V) -> ExitCode
where
    R: AllocGlobal + Env + Files + Threads + Wait + Clock + Sync,
    R::File: Send + Sync,
    R::Dir: Send + Sync,
    I: Read + IsTerminal + Drop,
    W: Write + Drop,
    V: Write + Drop,
    ensures { exit_status result ≤ 3 }
{
    let mut err = ToWriter::new(err);
    match serve_system(rt, input, out, &mut err) {
        Ok(status) => ExitCode::from(status),
        Err(fault) => ExitCode::from(report_outcome(Err(fault), b"", &mut err)),
    }
}
