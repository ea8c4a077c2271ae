ghost use Rattle.std.specs.Prelude.{◌↔◌, ◌≡◌, IfOk, IsTrue, MatchBool, Ok, option_map, true};
ghost use Rattle.std.specs.List.{enumerate_from};
ghost use Rattle.ira_main.specs.FilesRead.{CannotRead, Gives};
ghost use Rattle.ira_main.specs.LeftFiles.{HasLeftFiles, HasLeftInFolder, HasLeftNames, IsLeftFault, IsLeftFolderFault, IsLeftNamesFault};
ghost use Rattle.ira_main.specs.LeftFiles.{MayBeLost, SaysLeft, left_by};

use crate::file_fault::FileFault;
use crate::read_files::read_in_turn;
use crate::source_names::{given_names, lone_folder, names_in_folder, number_of_logs};
use ira_event::{MAX_NODES, OutOfMemory};
use ira_main_cli::LogSource;
use ira_main_files::{FileName, ShelfFault, TextBuffer, TextSource};
use ira_mend::RecordedLogs;
use std::alloc::Allocator;

/// The files of which the logs to mend are what is left.
#[derive(Drop)]
pub(crate) struct LeftFiles<A: Allocator> {
    pub(crate) names: Vec<FileName<A>, A>,
    in_folder: bool,
}

/// Whether the log at this place may be lost: it is one of those that are named, or, where none are, one in a folder.
fn may_be_lost(lost: &Option<Vec<u64>>, in_folder: bool, place: u64) -> bool
    ensures { IsTrue result ↔ MayBeLost (option_map (λ places. places.items) lost.now) in_folder place }
{
    match lost {
        Some(places) => places.contains(&place),
        None => in_folder,
    }
}

/// Reads the text of the file of this name, of no bytes where its log may be lost, and says whether it can be read.
fn find_into<A: Allocator, F: TextSource>(
    name: &str,
    is_lost: bool,
    text: &mut TextBuffer<A>,
    shelf: &F,
) -> Result<bool, OutOfMemory>
    ensures { IfOk result (λ is_left. MatchBool is_left
        ((left_by F.reads (IsTrue is_lost)).text shelf.now name.now (Ok text.new))
        (CannotRead (left_by F.reads (IsTrue is_lost)) shelf.now name.now)) }
{
    match shelf.read(name, text) {
        Ok(()) => Ok(true),
        Err(ShelfFault::NotFound) => {
            if !is_lost {
                return Ok(false);
            }
            text.clear();
            Ok(true)
        }
        Err(ShelfFault::Device) => Ok(false),
        Err(ShelfFault::OutOfMemory) => Err(OutOfMemory),
    }
}

/// How many logs a folder has, by the first of them of which a whole head is left; one where there is none.
fn number_left<A: Allocator + Clone, F: TextSource>(
    alloc: &A,
    folder: &str,
    shelf: &F,
) -> Result<Result<u8, FileFault<A>>, OutOfMemory>
    ensures { Gives result (SaysLeft F.reads shelf.now folder.now) (IsLeftFolderFault F.reads shelf.now folder.now) }
{
    let mut text = TextBuffer::new(alloc.clone()?);
    for place in 0..MAX_NODES as u8 {
        let name = FileName::log(alloc.clone()?, folder, place)?;
        if !find_into(name.as_str(), true, &mut text, shelf)? {
            return Ok(Err(FileFault::Unread(name)));
        }
        let number = number_of_logs(text.bytes());
        if number > 1 {
            return Ok(Ok(number));
        }
    }
    Ok(Ok(1))
}

/// The names of the files of as many logs as a folder has.
fn names_left<A: Allocator + Clone, F: TextSource>(
    alloc: &A,
    folder: &str,
    shelf: &F,
) -> Result<Result<LeftFiles<A>, FileFault<A>>, OutOfMemory>
    ensures { Gives result
        (λ left. HasLeftInFolder F.reads shelf.now folder.entry left.names.items × (left.in_folder ≡ true))
        (IsLeftFolderFault F.reads shelf.now folder.now) }
{
    match number_left(alloc, folder, shelf)? {
        Ok(number) => Ok(Ok(LeftFiles {
            names: names_in_folder(alloc, folder, number)?,
            in_folder: true,
        })),
        Err(fault) => Ok(Err(fault)),
    }
}

/// The files of which the logs to mend are what is left.
pub(crate) fn left_names<A: Allocator + Clone, F: TextSource>(
    alloc: &A,
    source: &LogSource<'_>,
    shelf: &F,
) -> Result<Result<LeftFiles<A>, FileFault<A>>, OutOfMemory>
    ensures { Gives result (λ left. HasLeftNames F.reads shelf.now source.now left.in_folder left.names.items)
        (IsLeftNamesFault F.reads shelf.now source.now) }
{
    match source {
        LogSource::Files(words) => match lone_folder(words, shelf) {
            Some(folder) => names_left(alloc, folder, shelf),
            None => Ok(Ok(LeftFiles {
                names: given_names(alloc, words)?,
                in_folder: false,
            })),
        },
        LogSource::Folder(folder) => names_left(alloc, folder, shelf),
    }
}

/// What is left of the logs in these files, which are read in turn. Where each text is short they are read once more as
/// those of logs are, so that a file that isn't there is named.
pub(crate) fn read_left<A: Allocator + Clone, F: TextSource>(
    alloc: &A,
    lost: &Option<Vec<u64>>,
    left: &LeftFiles<A>,
    shelf: &F,
) -> Result<Result<RecordedLogs<A>, FileFault<A>>, OutOfMemory>
    ensures { Gives result
        (HasLeftFiles F.reads (MayBeLost (option_map (λ places. places.items) lost.now) left.now.in_folder) shelf.now
        (enumerate_from 0 left.now.names.items))
        (IsLeftFault F.reads (MayBeLost (option_map (λ places. places.items) lost.now) left.now.in_folder) shelf.now
        left.now.names.items) }
{
    let mut recorded = RecordedLogs::new(alloc.clone()?);
    let mut text = TextBuffer::new(alloc.clone()?);
    for (place, name) in left.names.iter().enumerate() {
        let is_lost = may_be_lost(lost, left.in_folder, place as u64);
        if !find_into(name.as_str(), is_lost, &mut text, shelf)? {
            return Ok(Err(FileFault::Unread(FileName::given(alloc.clone()?, name.as_str())?)));
        }
        recorded.take(text.bytes())?;
    }
    if !recorded.are_short() {
        return Ok(Ok(recorded));
    }
    match read_in_turn(alloc, &left.names, false, shelf)? {
        Ok(_) => Ok(Ok(recorded)),
        Err(fault) => Ok(Err(fault)),
    }
}
