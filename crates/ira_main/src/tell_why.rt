ghost use Rattle.std.specs.Prelude.{◌≡◌, IfOk};
ghost use Rattle.ira_view_page.specs.Printable.{IsPrintable};
ghost use Rattle.ira_main.specs.Unread.{IsTold, IsWhy, entry_text, why_text};

use crate::file_fault::FileFault;
use crate::program_fault::ProgramFault;
use ira_ask::SentenceFault;
use ira_commands::CommandFault;
use ira_event::OutOfMemory;
use ira_main_cli::sentence_in;
use ira_main_files::{FileEntry, TextSource};
use ira_view::Status;
use ira_view_explain_question::explain_sentence;
use ira_view_page::PageText;
use std::alloc::{Allocator, Global};

/// What is told after the line of an outcome.
#[derive(Drop)]
pub(crate) enum Why<A: Allocator> {
    Line(&'static [u8]),
    Page(PageText<A>),
}

impl<A: Allocator> Why<A> {
    pub(crate) fn bytes(&self) -> &[u8]
        ensures { result.now ≡ why_text self.now }
    {
        match self {
            Why::Line(line) => line,
            Why::Page(page) => page.bytes(),
        }
    }
}

/// What is said of a file of this name that wasn't read, by what the name leads to: of a log that `mend` can do without it.
fn entry_text(name: &str, entry: FileEntry) -> &'static [u8]
    ensures { result.now ≡ entry_text name.now entry }
{
    let is_log = name.as_bytes().ends_with(b".log");
    match entry {
        FileEntry::Missing if is_log => {
            b"  no such file; of a log that is lost `ira mend --lost PLACE` makes an empty one\n"
        }
        FileEntry::Missing => b"  no such file\n",
        FileEntry::Folder => b"  it is a folder; logs in a folder are named by --dir\n",
        _ => b"  the system refuses to open or read it; `ls -l` says who may\n",
    }
}

/// The line after that of a file that wasn't read or written: none of other outcomes, and of standard input.
fn why_unread<A: Allocator, F: TextSource>(
    outcome: &Result<Status, ProgramFault<'_, A>>,
    shelf: &F,
) -> &'static [u8]
    ensures { IsWhy F.reads shelf.now outcome.now result.now }
{
    match outcome {
        Err(ProgramFault::File(FileFault::Unread(name))) if name.as_str() != "-" => {
            entry_text(name.as_str(), shelf.look_up(name.as_str()))
        }
        Err(ProgramFault::CannotWrite(_) | ProgramFault::CannotWriteLog(_, _)) => {
            b"  it is a folder, its folder isn't there or can't be written in, or the disk is full\n"
        }
        _ => b"",
    }
}

/// Where the sentence of these words goes on as none does, which has this fault.
fn of_sentence<A: Allocator + Clone>(
    of_words: Global,
    alloc: &A,
    words: &[&str],
    fault: SentenceFault,
) -> Result<Why<A>, OutOfMemory>
    ensures { IfOk result (λ why. IsPrintable (why_text why)) }
{
    let sentence = sentence_in(of_words, words).unwrap_or("");
    Ok(Why::Page(explain_sentence(alloc.clone()?, sentence.as_bytes(), fault)?))
}

/// What is told after the line of an outcome of these words: of a file that wasn't read or written a line, of a text
/// that is no sentence's where it goes on as none does.
pub(crate) fn told_why<A: Allocator + Clone, F: TextSource>(
    of_words: Global,
    alloc: &A,
    words: &[&str],
    outcome: &Result<Status, ProgramFault<'_, A>>,
    shelf: &F,
) -> Why<A>
    ensures { IsTold F.reads shelf.now outcome.now (why_text result) }
{
    match outcome {
        Err(ProgramFault::Command(CommandFault::NoSentence(fault))) => {
            of_sentence(of_words, alloc, words, *fault).unwrap_or(Why::Line(b""))
        }
        _ => Why::Line(why_unread(outcome, shelf)),
    }
}
