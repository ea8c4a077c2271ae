ghost use Rattle.ira_main.specs.Ask.{AsksOf, HasSize, IsUnasked};
ghost use Rattle.ira_main.specs.FilesRead.{Gives};

use crate::file_fault::{Answered, FileFault};
use crate::source_names::logs_in;
use ira_commands::ask_sentence;
use ira_event::OutOfMemory;
use ira_main_cli::{AskRequest, AskedSize};
use ira_main_files::TextSource;
use std::alloc::Allocator;

/// How many nodes the ring has that is asked about.
fn size_of<A: Allocator + Clone, F: TextSource>(
    alloc: &A,
    asked: AskedSize<'_>,
    shelf: &F,
) -> Result<Result<u64, FileFault<A>>, OutOfMemory>
    ensures { Gives result (HasSize F.reads shelf.now asked.entry) (IsUnasked F.reads asked.entry shelf.now) }
{
    match asked {
        AskedSize::Nodes(nodes) => Ok(Ok(nodes)),
        AskedSize::Folder(folder) => match logs_in(alloc, folder, shelf)? {
            Ok(number) => Ok(Ok(u64::from(number))),
            Err(fault) => Ok(Err(fault)),
        },
    }
}

/// The question that a sentence stands for.
pub(crate) fn ask_files<A: Allocator + Clone, F: TextSource>(
    alloc: A,
    asked: &AskRequest<'_>,
    shelf: &F,
) -> Result<Answered<A>, OutOfMemory>
    ensures { Gives result (AsksOf F.reads asked.now shelf.now) (IsUnasked F.reads asked.now.size shelf.now) }
{
    match size_of(&alloc, asked.size, shelf)? {
        Ok(nodes) => Ok(Ok(ask_sentence(alloc, nodes, asked.sentence.as_bytes())?)),
        Err(fault) => Ok(Err(fault)),
    }
}
