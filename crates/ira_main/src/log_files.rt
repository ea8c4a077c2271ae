ghost use Rattle.std.specs.Prelude.{◌≡◌, ◌≤◌, ◌⊎◌, Err, MatchResult, length};
ghost use Rattle.ira_event.specs.LogText.{log_text};
ghost use Rattle.ira_main_files.specs.FileName.{log_name};
ghost use Rattle.ira_main_files.specs.Shelf.{NamesAll, WritesFile, writing_by};
ghost use Rattle.ira_main.specs.LogFiles.{DraftsLogs, StopsInLogs, StopsNaming, WritesLogs};

use crate::program_fault::ProgramFault;
use ira_event::{Logs, MAX_NODES, NodeLog, write_log};
use ira_main_files::{FileName, Shelf, ShelfFault};
use std::alloc::Allocator;

// Writes a log to a new file for its place.
fn write_file<A: Allocator, B: Allocator, F: Shelf>(
    alloc: A,
    folder: &str,
    log: &NodeLog<B>,
    shelf: &mut F,
) -> Result<F::Written, ShelfFault>
    ensures { WritesFile F.creates F.closes F.Out.state (log_name folder.now log.now.place)
        (log_text log.now) shelf.old result shelf.new
        ⊎ ((shelf.new ≡ shelf.old) × (result ≡ Err ShelfFault.OutOfMemory)) }
{
    let name = FileName::log(alloc, folder, log.place())?;
    let mut file = shelf.create(name.as_str())?;
    write_log(log, &mut file)?;
    shelf.close(file)
}

// Gives the files of the logs their names, in the order of the places.
fn keep_files<'a, A: Allocator, F: Shelf>(
    folder: &'a str,
    files: Vec<F::Written, A>,
    shelf: &mut F,
) -> Result<(), ProgramFault<'a, A>>
    requires { length files.items ≤ MAX_NODES }
    ensures { MatchResult result
        (λ _. NamesAll (writing_by F.creates F.closes F.keeps F.Out.state) files.items shelf.old shelf.new)
        (StopsNaming (writing_by F.creates F.closes F.keeps F.Out.state) folder.entry files.items shelf.old shelf.new) }
{
    let mut place = 0;
    for file in files {
        if let Err(fault) = shelf.keep(file) {
            return Err(ProgramFault::cannot_write_log(folder, place, fault));
        }
        place = place.wrapping_add(1);
    }
    Ok(())
}

/// Writes the logs, each to a file of its own, in the order of the places. No file gets its name before all are written.
pub(crate) fn write_files<'a, A: Allocator + Clone, B: Allocator, F: Shelf>(
    alloc: &A,
    folder: &'a str,
    logs: &Logs<B>,
    shelf: &mut F,
) -> Result<(), ProgramFault<'a, A>>
    ensures { MatchResult result
        (λ _. WritesLogs (writing_by F.creates F.closes F.keeps F.Out.state) folder.now logs.now shelf.old shelf.new)
        (StopsInLogs (writing_by F.creates F.closes F.keeps F.Out.state) folder.entry logs.now shelf.old shelf.new) }
{
    let mut files = Vec::with_capacity(alloc.clone()?, usize::from(logs.size().get()))?;
    for place in 0..logs.size().get() {
        match write_file(alloc, folder, logs.log(place), shelf) {
            Ok(file) => files.push_reserved(file),
            Err(fault) => return Err(ProgramFault::cannot_write_log(folder, place, fault)),
        }
    }
    keep_files(folder, files, shelf)
}
