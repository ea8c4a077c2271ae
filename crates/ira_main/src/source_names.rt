ghost use Rattle.std.specs.Prelude.{◌≡◌, [], ◌∷◌, IfOk, MatchBool, MatchOption, length, map};
ghost use Rattle.ira_main_files.specs.FileName.{log_name};
ghost use Rattle.ira_main.specs.FilesRead.{Gives, Stops};
ghost use Rattle.ira_main.specs.SourceNames.{AreFileNames, AreFolders, AreSeveralFolders, HasFolderNames, HasNames, HasNoFolder};
ghost use Rattle.ira_main.specs.SourceNames.{IsLoneFolder, IsNamesFault, IsOfOneRing, SaysLogs, SaysLogsIn, names_in};

use crate::file_fault::FileFault;
use crate::read_files::read_into;
use ira_event::{OutOfMemory, open_log};
use ira_main_cli::LogSource;
use ira_main_files::{FileEntry, FileName, TextBuffer, TextSource};
use std::alloc::Allocator;

/// How many logs there are, by the text of one; one where it has no head.
pub(crate) fn number_of_logs(text: &[u8]) -> u8
    ensures { SaysLogs text.now result }
{
    match open_log(text) {
        Ok((head, _)) => head.nodes.get(),
        Err(_) => 1,
    }
}

/// The names that words give.
pub(crate) fn given_names<A: Allocator + Clone>(
    alloc: &A,
    words: &[&str],
) -> Result<Vec<FileName<A>, A>, OutOfMemory>
    ensures { IfOk result (λ names. names.items ≡ map (λ word. word.now) words.now) }
{
    let mut names = Vec::with_capacity(alloc.clone()?, words.len())?;
    for word in words {
        names.push(FileName::given(alloc.clone()?, word)?)?;
    }
    Ok(names)
}

/// The names of the first logs in a folder.
pub(crate) fn names_in_folder<A: Allocator + Clone>(
    alloc: &A,
    folder: &str,
    number: u8,
) -> Result<Vec<FileName<A>, A>, OutOfMemory>
    ensures { IfOk result (λ names. names.items ≡ names_in folder.now number) }
{
    let mut names = Vec::with_capacity(alloc.clone()?, usize::from(number))?;
    for place in 0..number {
        names.push(FileName::log(alloc.clone()?, folder, place)?)?;
    }
    Ok(names)
}

pub(crate) fn paths<A: Allocator + Clone>(
    alloc: &A,
    names: &[FileName<A>],
) -> Result<Vec<String<A>, A>, OutOfMemory>
    ensures { IfOk result (λ paths. length paths.items ≡ length names.now) }
{
    let mut paths = Vec::with_capacity(alloc.clone()?, names.len())?;
    for name in names {
        paths.push(String::from_str(alloc.clone()?, name.as_str())?)?;
    }
    Ok(paths)
}

/// The folder that is named alone where names of files are due.
pub(crate) fn lone_folder<'a, F: TextSource>(words: &[&'a str], shelf: &F) -> Option<&'a str>
    ensures { MatchOption result
        (AreFileNames F.reads shelf.now words.now)
        (IsLoneFolder F.reads shelf.now words.now) }
{
    match words {
        [word] if matches!(shelf.look_up(word), FileEntry::Folder) => Some(word),
        _ => None,
    }
}

/// Whether each of these names leads to a folder.
fn are_folders<F: TextSource>(names: &[&str], shelf: &F) -> bool
    ensures { MatchBool result (AreFolders F.reads shelf.now names.now) (HasNoFolder F.reads shelf.now names.now) }
{
    for name in names {
        if !matches!(shelf.look_up(name), FileEntry::Folder) {
            return false;
        }
    }
    true
}

/// The folders that are named where names of files are due, where there are several and each is to be judged.
pub(crate) fn several_folders<'t, 'a, F: TextSource>(
    source: &'t LogSource<'a>,
    shelf: &F,
) -> Option<&'t [&'a str]>
    ensures { MatchOption result
        (IsOfOneRing F.reads shelf.now source.now)
        (λ folders. AreSeveralFolders F.reads shelf.now source.now folders.now) }
{
    match source {
        LogSource::Files(names) if names.len() < 2 => None,
        LogSource::Files(names) if are_folders(names, shelf) => Some(names),
        LogSource::Files(_) | LogSource::Folder(_) => None,
    }
}

/// How many logs there are in a folder, as the first says, which is read.
pub(crate) fn logs_in<A: Allocator + Clone, F: TextSource>(
    alloc: &A,
    folder: &str,
    shelf: &F,
) -> Result<Result<u8, FileFault<A>>, OutOfMemory>
    ensures { Gives result (SaysLogsIn F.reads shelf.now folder.entry)
        (Stops F.reads shelf.now (log_name folder.now 0 ∷ [])) }
{
    let first = FileName::log(alloc.clone()?, folder, 0)?;
    let mut text = TextBuffer::new(alloc.clone()?);
    if read_into(first.as_str(), &mut text, shelf)? {
        Ok(Ok(number_of_logs(text.bytes())))
    } else {
        Ok(Err(FileFault::Unread(first)))
    }
}

/// The names of the logs in a folder. The first is read again with the others.
fn folder_names<A: Allocator + Clone, F: TextSource>(
    alloc: &A,
    folder: &str,
    shelf: &F,
) -> Result<Result<Vec<FileName<A>, A>, FileFault<A>>, OutOfMemory>
    ensures { Gives result (λ names. HasFolderNames F.reads shelf.now folder.entry names.items)
        (Stops F.reads shelf.now (log_name folder.now 0 ∷ [])) }
{
    match logs_in(alloc, folder, shelf)? {
        Ok(number) => Ok(Ok(names_in_folder(alloc, folder, number)?)),
        Err(fault) => Ok(Err(fault)),
    }
}

/// The names of the files that logs come from.
pub(crate) fn source_names<A: Allocator + Clone, F: TextSource>(
    alloc: &A,
    source: &LogSource<'_>,
    shelf: &F,
) -> Result<Result<Vec<FileName<A>, A>, FileFault<A>>, OutOfMemory>
    ensures { Gives result (λ names. HasNames F.reads shelf.now source.now names.items)
        (IsNamesFault F.reads shelf.now source.now) }
{
    match source {
        LogSource::Files(words) => match lone_folder(words, shelf) {
            Some(folder) => folder_names(alloc, folder, shelf),
            None => Ok(Ok(given_names(alloc, words)?)),
        },
        LogSource::Folder(folder) => folder_names(alloc, folder, shelf),
    }
}
