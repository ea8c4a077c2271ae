ghost use Rattle.std.specs.Prelude.{◌≡◌, ◌↔◌, IfOk, IsTrue, MatchOption};
ghost use Rattle.ira_main_files.specs.declared.file_entry.FileEntry.TheVariants.{File};
ghost use Rattle.ira_main_files.specs.declared.file_entry.FileId.{FileId};
ghost use Rattle.ira_main.specs.Overwriting.{KeepsFiles, KeepsInput, Overwrites, Replaces, ReplacesInput, ReplacesNone, input_names};

use crate::delivery::OUTPUT;
use ira_event::{MAX_NODES, OutOfMemory};
use ira_main_files::{FileEntry, FileName, TextSource};
use std::alloc::Allocator;

/// Whether both are one file.
fn is_same_file(entry: FileEntry, other: FileEntry) -> bool
    ensures { IsTrue result ↔ ((file : FileId) × (entry ≡ File file) × (other ≡ File file)) }
{
    match (entry, other) {
        (FileEntry::File(file), FileEntry::File(other)) => file == other,
        _ => false,
    }
}

/// The first of the names that leads to the file of this name, if that leads to one.
fn replaced<'t, A: Allocator, F: TextSource>(
    written: &str,
    names: &'t [FileName<A>],
    shelf: &F,
) -> Option<&'t str>
    ensures { MatchOption result
        (ReplacesNone F.reads shelf.now written.now names.now)
        (λ name. Replaces F.reads shelf.now written.now names.now name.now) }
{
    let file = shelf.look_up(written);
    if !matches!(file, FileEntry::File(_)) {
        return None;
    }
    for name in names {
        let path = name.as_str();
        if is_same_file(file, shelf.look_up(path)) {
            return Some(path);
        }
    }
    None
}

/// A name that leads to the file which one of the logs would be written to, where there is a log for each of the names.
pub(crate) fn overwritten<'t, A: Allocator + Clone, F: TextSource>(
    alloc: &A,
    folder: &str,
    names: &'t [FileName<A>],
    shelf: &F,
) -> Result<Option<&'t str>, OutOfMemory>
    ensures { IfOk result (λ found. MatchOption found
        (KeepsInput F.reads shelf.now folder.now names.now)
        (λ name. Overwrites F.reads shelf.now folder.now names.now name.now)) }
{
    let places = names.len().min(MAX_NODES);
    for place in 0..places {
        let log = FileName::log(alloc.clone()?, folder, place as u8)?;
        if let Some(name) = replaced(log.as_str(), names, shelf) {
            return Ok(Some(name));
        }
    }
    Ok(None)
}

/// The name of the question, if there is one, or of a log, that leads to the file of this name.
fn replaced_input<'t, A: Allocator, F: TextSource>(
    written: &str,
    question: Option<&'t str>,
    logs: &'t [FileName<A>],
    shelf: &F,
) -> Option<&'t str>
    ensures { MatchOption result
        (ReplacesNone F.reads shelf.now written.now (input_names question.entry logs.now))
        (λ name. Replaces F.reads shelf.now written.now (input_names question.entry logs.now) name.now) }
{
    let Some(question) = question else {
        return replaced(written, logs, shelf);
    };
    if is_same_file(shelf.look_up(written), shelf.look_up(question)) {
        return Some(question);
    }
    replaced(written, logs, shelf)
}

/// The name of a file that is read, and that a new file would be written over, if one is wanted.
pub(crate) fn overwritten_input<'t, A: Allocator, F: TextSource>(
    made: Option<&str>,
    question: Option<&'t str>,
    logs: &'t [FileName<A>],
    shelf: &F,
) -> Option<&'t str>
    ensures { MatchOption result
        (KeepsFiles F.reads shelf.now made.entry (input_names question.entry logs.now))
        (λ name. ReplacesInput F.reads shelf.now made.entry (input_names question.entry logs.now) name.now) }
{
    let Some(made) = made else {
        return None;
    };
    if made == OUTPUT {
        return None;
    }
    replaced_input(made, question, logs, shelf)
}
