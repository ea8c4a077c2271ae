ghost use Rattle.std.specs.Prelude.{◌≡◌, ◌<◌, ℕ, IfOk, List, MatchResult, Some, length, slice_get};
ghost use Rattle.std.specs.Borrow.{Bor};
ghost use Rattle.std.specs.List.{filter_map, list_any};
ghost use Rattle.ira_main.specs.Each.{AreTold, IsTold, IsUntold, JudgesEach, TellsSome, each_status, unread_names};
ghost use Rattle.ira_main.specs.FolderText.{features_of, is_no};

use crate::folder_answer::{FolderAnswer, ToldFolder, features_of, is_no, tell_folder};
use crate::judge_files::AskedLogs;
use crate::program_fault::ProgramFault;
use crate::read_files::{chunk_from, thread_count};
use ira_event::{MemorySink, OutOfMemory, Sink, WriteFault, write_bytes};
use ira_main_files::{FileName, Shelf, TextSource};
use ira_view::{Status, write_sum};
use ira_view_json::RunFeatures;
use ira_view_page::ShowFault;
use std::alloc::{AllocError, Allocator};
use std::thread::{self, Threads};

/// What is told of a folder, of which this came while others were read too: where memory ran out then, or a file couldn't be
/// read, it is judged again.
fn settled<A: Allocator + Clone, F: TextSource>(
    alloc: &A,
    asked: AskedLogs<'_, '_>,
    first: Result<ToldFolder<A>, OutOfMemory>,
    folder: &str,
    shelf: &F,
) -> Result<ToldFolder<A>, OutOfMemory>
    requires { IfOk first (λ told. IsTold A F.reads asked.form asked.expected.now asked.detail asked.is_summed shelf.now
        folder told.answer told.text.bytes) }
    ensures { IfOk result (λ told. IsTold A F.reads asked.entry.form asked.entry.expected.now asked.entry.detail
        asked.entry.is_summed shelf.now folder.entry told.answer told.text.bytes) }
{
    if let Ok(told) = first {
        if told.answer.is_ok() {
            return Ok(told);
        }
    }
    tell_folder(alloc, asked, folder, shelf)
}

/// What comes of each of these folders, and what is printed of them, in their order. They are judged several at a time, and
/// those that aren't known then again when all have ended: then no other file is open, so what comes of them can't depend on
/// how many were.
fn tell_at_once<R, A, F>(
    rt: &R,
    alloc: &A,
    asked: AskedLogs<'_, '_>,
    folders: &[&str],
    shelf: &F,
) -> Result<(Vec<FolderAnswer<A>, A>, MemorySink<A>), OutOfMemory>
where
    R: Threads + Sync,
    A: Allocator + Clone + Send + Sync,
    F: TextSource + Sync,
    ensures { IfOk result (λ told. AreTold (IsTold A F.reads asked.entry.form asked.entry.expected.now
        asked.entry.detail asked.entry.is_summed shelf.now) folders.now told.0.items told.1.bytes) }
{
    let tell = |i: usize| -> Result<ToldFolder<A>, OutOfMemory>
        requires { i < length folders.now }
        ensures { IfOk result (λ told. (folder : Bor (List ℕ)) → slice_get folders.entry.now i ≡ Some folder
            → IsTold A F.reads asked.entry.form asked.entry.expected.now asked.entry.detail asked.entry.is_summed
            shelf.entry.now folder told.answer told.text.bytes) }
    { tell_folder(alloc, asked, folders[i], shelf) };
    let first = thread::map_indices(rt, alloc.clone()?, folders.len(), &tell)?;
    let mut text = MemorySink::new(alloc.clone()?);
    let mut answers = Vec::with_capacity(alloc.clone()?, folders.len())?;
    for told in first {
        let told = settled(alloc, asked, told, folders[answers.len()], shelf)?;
        let Ok(()) = write_bytes(told.text.bytes(), &mut text) else {
            return Err(OutOfMemory);
        };
        answers.push(told.answer)?;
    }
    Ok((answers, text))
}

/// The names of the files that weren't read.
fn unread<A: Allocator>(
    alloc: A,
    answers: Vec<FolderAnswer<A>, A>,
) -> Result<Vec<FileName<A>, A>, AllocError>
    ensures { IfOk result (λ names. names.items ≡ unread_names answers.items) }
{
    answers
        .into_iter()
        .filter_map(|answer| answer.err())
        .collect(alloc)
}

/// What the runs had of which that is asked.
fn runs_of<A: Allocator>(
    alloc: A,
    answers: &[FolderAnswer<A>],
) -> Result<Vec<RunFeatures, A>, AllocError>
    ensures { IfOk result (λ runs. runs.items ≡ filter_map features_of answers.now) }
{
    answers
        .iter()
        .filter_map(|answer| features_of(answer))
        .collect(alloc)
}

/// Whether one of these answers is no.
fn has_no<A: Allocator>(answers: &[FolderAnswer<A>]) -> bool
    ensures { result ≡ list_any is_no answers.now }
{
    answers.iter().any(|answer| is_no(answer))
}

/// The status of what comes of folders: yes where no answer is no.
fn status_of<A: Allocator>(answers: &[FolderAnswer<A>]) -> Status
    ensures { result ≡ each_status answers.now }
{
    if has_no(answers) {
        Status::No
    } else {
        Status::Yes
    }
}

/// Judges the logs in each of some folders at once, and prints what is told of them in their order.
fn tell_some<R, A, F, W>(
    rt: &R,
    alloc: &A,
    asked: AskedLogs<'_, '_>,
    folders: &[&str],
    shelf: &F,
    out: &mut W,
) -> Result<Vec<FolderAnswer<A>, A>, ShowFault>
where
    R: Threads + Sync,
    A: Allocator + Clone + Send + Sync,
    F: TextSource + Sync,
    W: Sink,
    ensures { MatchResult result
        (λ answers. TellsSome (IsTold A F.reads asked.entry.form asked.entry.expected.now asked.entry.detail
        asked.entry.is_summed shelf.now) folders.now (W.state out.old) (W.state out.new) answers.items)
        (IsUntold (IsTold A F.reads asked.entry.form asked.entry.expected.now asked.entry.detail asked.entry.is_summed
        shelf.now) folders.now (W.state out.old) (W.state out.new)) }
{
    let (answers, text) = tell_at_once(rt, alloc, asked, folders, shelf)?;
    write_bytes(text.bytes(), out)?;
    Ok(answers)
}

/// Judges the logs in each of some folders, and prints what is told of them in their order: of as many as threads run at a
/// time once these are judged. Below them it prints how many of their runs had what, where that is asked.
pub(crate) fn judge_each<'a, R, A, F, W>(
    rt: &R,
    alloc: A,
    asked: AskedLogs<'_, '_>,
    folders: &[&str],
    shelf: &F,
    out: &mut W,
) -> Result<Status, ProgramFault<'a, A>>
where
    R: Threads + Sync,
    A: Allocator + Clone + Send + Sync,
    F: Shelf + Sync,
    W: Sink,
    ensures { JudgesEach A F.reads asked.entry.form asked.entry.expected.now asked.entry.detail asked.entry.is_summed
        folders.now shelf.now (W.state out.old) (W.state out.new) result }
{
    let size = thread_count(rt);
    let mut answers = Vec::new(alloc.clone()?);
    while answers.len() < folders.len() {
        let some = chunk_from(folders, answers.len(), size);
        answers.append(&mut tell_some(rt, &alloc, asked, some, shelf, out)?)?;
    }
    let status = status_of(&answers);
    let runs = runs_of(alloc.clone()?, &answers)?;
    let unread = unread(alloc.clone()?, answers)?;
    write_sum(alloc, asked.is_summed, asked.form, &runs, out)?;
    if unread.is_empty() {
        Ok(status)
    } else {
        Err(ProgramFault::CannotReadSome(unread))
    }
}
