ghost use Rattle.std.specs.Prelude.{None};
ghost use Rattle.ira_commands.specs.Upgrade.{UpgradesTexts};
ghost use Rattle.ira_main.specs.FilesRead.{Gives};
ghost use Rattle.ira_main.specs.Given.{IsUnread, OfFiles};

use crate::file_fault::Answered;
use crate::given::{Inputs, read_given};
use ira_commands::upgrade_taken;
use ira_event::OutOfMemory;
use ira_main_cli::RewriteRequest;
use ira_main_files::Shelf;
use std::alloc::Allocator;
use std::thread::Threads;

/// The logs of a source in version 2, all read before a file is made: they may lie in the folder written to.
pub(crate) fn upgrade_files<R, A, F>(
    rt: &R,
    alloc: &A,
    upgrade: &RewriteRequest<'_>,
    shelf: &F,
) -> Result<Answered<A>, OutOfMemory>
where
    R: Threads + Sync,
    A: Allocator + Clone + Send + Sync,
    F: Shelf + Sync,
    ensures { Gives result
        (OfFiles F.reads None None None upgrade.now.logs shelf.now (λ given. UpgradesTexts given.texts))
        (IsUnread F.reads None None None upgrade.now.logs shelf.now) }
{
    let inputs = Inputs::asking(None, &upgrade.logs, None);
    match read_given(rt, alloc, inputs, false, shelf)? {
        Ok(given) => {
            let logs = given.logs;
            Ok(Ok(upgrade_taken(alloc.clone()?, logs.audit)?))
        }
        Err(fault) => Ok(Err(fault)),
    }
}
