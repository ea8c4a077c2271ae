ghost use Rattle.std.specs.Prelude.{IfOk, MatchOption, Some};
ghost use Rattle.ira_main_cli.specs.declared.asked_leaders.AskedLeaders.TheVariants.{File};
ghost use Rattle.ira_main.specs.FilesRead.{Gives};
ghost use Rattle.ira_main.specs.LeadersFile.{HasLeadersIn, ComesFromNoFolder, ComesFromFolder, IsLeadersFile, IsNoLeaders};

use crate::file_fault::FileFault;
use crate::read_files::read_into;
use crate::source_names::lone_folder;
use ira_event::OutOfMemory;
use ira_main_cli::{AskedLeaders, LogSource};
use ira_main_files::{FileName, LeadersFault, TextBuffer, TextSource, read_leaders};
use std::alloc::Allocator;

/// The folder that logs come from, if they come from one.
fn folder_of<'a, F: TextSource>(source: &LogSource<'a>, shelf: &F) -> Option<&'a str>
    ensures { MatchOption result (ComesFromNoFolder F.reads shelf.now source.now) (ComesFromFolder F.reads shelf.now source.now) }
{
    match source {
        LogSource::Files(words) => lone_folder(words, shelf),
        LogSource::Folder(folder) => Some(folder),
    }
}

/// The file of leaders of this name. One without a slash lies in the folder of the logs.
fn leaders_file<A: Allocator, F: TextSource>(
    alloc: A,
    name: &str,
    source: &LogSource<'_>,
    shelf: &F,
) -> Result<FileName<A>, OutOfMemory>
    ensures { IfOk result (IsLeadersFile F.reads shelf.now source.now name.now) }
{
    if name.as_bytes().contains(&b'/') {
        return Ok(FileName::given(alloc, name)?);
    }
    match folder_of(source, shelf) {
        Some(folder) => Ok(FileName::in_folder(alloc, folder, name)?),
        None => Ok(FileName::given(alloc, name)?),
    }
}

/// The places in the file of leaders of this name.
fn places_in<A: Allocator + Clone, F: TextSource>(
    alloc: &A,
    name: &str,
    source: &LogSource<'_>,
    shelf: &F,
) -> Result<Result<Vec<u64, A>, FileFault<A>>, OutOfMemory>
    ensures { Gives result
        (λ places. HasLeadersIn F.reads shelf.now source.now (Some (File name.entry)) places.items)
        (IsNoLeaders F.reads shelf.now source.now (Some (File name.entry))) }
{
    let file = leaders_file(alloc.clone()?, name, source, shelf)?;
    let mut text = TextBuffer::new(alloc.clone()?);
    if !read_into(file.as_str(), &mut text, shelf)? {
        return Ok(Err(FileFault::Unread(file)));
    }
    match read_leaders(alloc.clone()?, text.bytes()) {
        Ok(places) => Ok(Ok(places)),
        Err(LeadersFault::Line(line)) => Ok(Err(FileFault::NoPlaceInLine(line, file))),
        Err(LeadersFault::OutOfMemory) => Err(OutOfMemory),
    }
}

/// The places in the file of leaders, if one is named; else none.
pub(crate) fn leaders_in<A: Allocator + Clone, F: TextSource>(
    alloc: &A,
    named: &Option<AskedLeaders<'_>>,
    source: &LogSource<'_>,
    shelf: &F,
) -> Result<Result<Vec<u64, A>, FileFault<A>>, OutOfMemory>
    ensures { Gives result
        (λ places. HasLeadersIn F.reads shelf.now source.now named.now places.items)
        (IsNoLeaders F.reads shelf.now source.now named.now) }
{
    match named {
        Some(AskedLeaders::File(name)) => places_in(alloc, name, source, shelf),
        Some(AskedLeaders::Any | AskedLeaders::Places(_)) | None => {
            Ok(Ok(Vec::new(alloc.clone()?)))
        }
    }
}
