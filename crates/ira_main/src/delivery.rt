ghost use Rattle.std.specs.Prelude.{◌≡◌};
ghost use Rattle.ira_commands.specs.Reply.{made};
ghost use Rattle.ira_main_files.specs.Shelf.{writing_by};
ghost use Rattle.ira_main.specs.Delivery.{KeepsResult, KeepsText, PrintsFile, PrintsReply, PrintsResult, RecordsResult, outcome_of};
ghost use Rattle.ira_main.specs.Outcome.{PrintsLine};

use crate::file_fault::Answered;
use crate::log_files::write_files;
use crate::program_fault::ProgramFault;
use crate::text_file::write_text;
use ira_commands::{Files, Reply};
use ira_event::{OutOfMemory, Sink, WriteFault, write_bytes};
use ira_main_files::Shelf;
use ira_view::Status;
use std::alloc::Allocator;

/// The name that stands for the output where one for a file is due.
pub(crate) const OUTPUT: &str = "-";

/// What the program ends with after a reply: its status, or why it is refused.
fn outcome<'a, A: Allocator + Clone>(reply: &Reply<A>) -> Result<Status, ProgramFault<'a, A>>
    ensures { result ≡ outcome_of reply.now.status reply.now.fault }
{
    match reply.fault() {
        Some(fault) => Err(ProgramFault::Command(fault)),
        None => Ok(reply.status()),
    }
}

/// Prints a text, after which this is the status.
pub(crate) fn print_text<'a, A: Allocator, W: Sink>(
    text: &[u8],
    status: Status,
    out: &mut W,
) -> Result<Status, ProgramFault<'a, A>>
    ensures { PrintsLine text.now status (W.state out.old) (W.state out.new) result }
{
    match write_bytes(text, out) {
        Ok(()) => Ok(status),
        Err(WriteFault) => Err(ProgramFault::CannotWriteAnswer),
    }
}

/// Prints a reply.
fn print<'a, A: Allocator + Clone, W: Sink>(
    reply: &Reply<A>,
    out: &mut W,
) -> Result<Status, ProgramFault<'a, A>>
    ensures { PrintsReply reply.now (W.state out.old) (W.state out.new) result }
{
    reply.out().write(out)?;
    outcome(reply)
}

/// Prints a reply that makes no file, if there is one.
pub(crate) fn deliver<'a, A: Allocator + Clone, W: Sink>(
    answered: Result<Answered<A>, OutOfMemory>,
    out: &mut W,
) -> Result<Status, ProgramFault<'a, A>>
    ensures { PrintsResult answered (W.state out.old) (W.state out.new) result }
{
    let reply = answered??;
    print(&reply, out)
}

/// Makes the file of this name, if there is a text for one.
fn keep_text<'a, A: Allocator, F: Shelf>(
    files: &Files<A>,
    name: &'a str,
    shelf: &mut F,
) -> Result<(), ProgramFault<'a, A>>
    ensures { KeepsText (writing_by F.creates F.closes F.keeps F.Out.state) name.entry (made files.now)
        shelf.old shelf.new result }
{
    let Some(text) = files.text() else {
        return Ok(());
    };
    match write_text(text, name, shelf) {
        Ok(()) => Ok(()),
        Err(fault) => Err(ProgramFault::cannot_write(name, fault)),
    }
}

/// Prints the file of a reply in place of what it says, where it has one.
fn print_file<'a, A: Allocator + Clone, W: Sink>(
    reply: &Reply<A>,
    out: &mut W,
) -> Result<Status, ProgramFault<'a, A>>
    ensures { PrintsFile reply.now (W.state out.old) (W.state out.new) result }
{
    if reply.fault().is_some() {
        return print(reply, out);
    }
    let Some(text) = reply.files().text() else {
        return print(reply, out);
    };
    print_text(text, reply.status(), out)
}

/// Prints a reply, and then makes its file, if it has a text for one and a name is given; `-` is the output.
pub(crate) fn deliver_and_keep<'a, A: Allocator + Clone, F: Shelf, W: Sink>(
    answered: Result<Answered<A>, OutOfMemory>,
    name: Option<&'a str>,
    shelf: &mut F,
    out: &mut W,
) -> Result<Status, ProgramFault<'a, A>>
    ensures { KeepsResult (writing_by F.creates F.closes F.keeps F.Out.state) name.entry answered shelf.old
        shelf.new (W.state out.old) (W.state out.new) result }
{
    let reply = answered??;
    let Some(name) = name else {
        return print(&reply, out);
    };
    if name == OUTPUT {
        return print_file(&reply, out);
    }
    let status = print(&reply, out)?;
    keep_text(reply.files(), name, shelf)?;
    Ok(status)
}

/// Writes the logs of a reply, if it has some, each to the file of its place in a folder, and then prints it.
pub(crate) fn record_and_deliver<'a, A: Allocator + Clone, F: Shelf, W: Sink>(
    alloc: &A,
    answered: Result<Answered<A>, OutOfMemory>,
    folder: &'a str,
    shelf: &mut F,
    out: &mut W,
) -> Result<Status, ProgramFault<'a, A>>
    ensures { RecordsResult (writing_by F.creates F.closes F.keeps F.Out.state) folder.entry answered
        shelf.old shelf.new (W.state out.old) (W.state out.new) result }
{
    let reply = answered??;
    let Some(logs) = reply.files().logs() else {
        return print(&reply, out);
    };
    write_files(alloc, folder, logs, shelf)?;
    print(&reply, out)
}
