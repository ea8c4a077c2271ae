ghost use Rattle.ira_main.specs.FilesRead.{Gives};
ghost use Rattle.ira_main.specs.Mend.{IsUnmended, MendsLogs};

use crate::file_fault::{Answered, FileFault};
use crate::left_files::{left_names, read_left};
use crate::overwriting::overwritten;
use ira_commands::mend_left;
use ira_event::OutOfMemory;
use ira_main_cli::MendRequest;
use ira_main_files::{FileName, Shelf};
use std::alloc::Allocator;

/// Of what is left of the logs of a ring the longest beginnings such that all are consistent.
pub(crate) fn mend_files<A: Allocator + Clone, F: Shelf>(
    alloc: &A,
    request: &MendRequest<'_>,
    shelf: &F,
) -> Result<Answered<A>, OutOfMemory>
    ensures { Gives result (MendsLogs F.reads request.now shelf.now) (IsUnmended F.reads request.now shelf.now) }
{
    let left = match left_names(alloc, &request.logs, shelf)? {
        Ok(left) => left,
        Err(fault) => return Ok(Err(fault)),
    };
    if let Some(name) = overwritten(alloc, request.folder, &left.names, shelf)? {
        return Ok(Err(FileFault::WouldOverwrite(FileName::given(alloc.clone()?, name)?)));
    }
    match read_left(alloc, &request.lost, &left, shelf)? {
        Ok(recorded) => Ok(Ok(mend_left(alloc.clone()?, request.is_initiator, recorded)?)),
        Err(fault) => Ok(Err(fault)),
    }
}
