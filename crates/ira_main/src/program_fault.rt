ghost use Rattle.std.specs.Prelude.{◌≡◌, ◌++◌, codes, decimal};
ghost use Rattle.std.specs.List.{flat_map};
ghost use Rattle.ira_event.specs.Sink.{Wrote};
ghost use Rattle.ira_main_files.specs.FileName.{slash_after};
ghost use Rattle.ira_main.specs.FileFault.{unread_text};
ghost use Rattle.ira_main.specs.Outcome.{ReportsOutcome, outcome_number};
ghost use Rattle.ira_main.specs.ProgramFault.{program_fault_status, program_fault_text, show_fault, unwritten_text, words_fault};
ghost use Rattle.ira_main.specs.ProgramFault.{write_fault, write_log_fault};
ghost use Rattle.ira_main.specs.declared.program_fault.ProgramFault.TheVariants as fault;

use crate::file_fault::{FileFault, write_naming};
use crate::shown_name::write_shown;
use ira_commands::CommandFault;
use ira_event::{Line, OutOfMemory, Sink, WriteFault, write_bytes};
use ira_main_cli::WordsFault;
use ira_main_files::{FileName, ShelfFault, slash_after};
use ira_view::Status;
use ira_view_page::ShowFault;
use std::alloc::{AllocError, AllocFailed, Allocator};

/// Why the program ends with neither yes nor no.
#[derive(Drop)]
pub enum ProgramFault<'a, A: Allocator> {
    /// The words were refused, with this text.
    Words(String),
    /// A word isn't UTF-8.
    WordIsNoText,
    /// What is asked for is refused for a file.
    File(FileFault<A>),
    /// These files can't be read, each of a folder whose logs were to be judged.
    CannotReadSome(Vec<FileName<A>, A>),
    /// What is asked for is refused.
    Command(CommandFault),
    /// The log of the node at this place can't be written to its file in this folder.
    CannotWriteLog(&'a str, u8),
    /// A certificate or a picture can't be written to the file of this name.
    CannotWrite(&'a str),
    CannotWriteAnswer,
    OutOfMemory,
}

impl<'a, A: Allocator> ProgramFault<'a, A> {
    /// The log of the node at this place wasn't written to its file in this folder.
    pub(crate) fn cannot_write_log(
        folder: &'a str,
        place: u8,
        fault: ShelfFault,
    ) -> ProgramFault<'a, A>
        ensures { result ≡ write_log_fault folder.entry place fault }
    {
        match fault {
            ShelfFault::Device | ShelfFault::NotFound => ProgramFault::CannotWriteLog(
                folder, place,
            ),
            ShelfFault::OutOfMemory => ProgramFault::OutOfMemory,
        }
    }

    /// A certificate or a picture wasn't written to the file of this name.
    pub(crate) fn cannot_write(name: &'a str, fault: ShelfFault) -> ProgramFault<'a, A>
        ensures { result ≡ write_fault name.entry fault }
    {
        match fault {
            ShelfFault::Device | ShelfFault::NotFound => ProgramFault::CannotWrite(name),
            ShelfFault::OutOfMemory => ProgramFault::OutOfMemory,
        }
    }

    /// The status that the program ends with.
    fn status(&self) -> Status
        ensures { result ≡ program_fault_status self.now }
    {
        match self {
            ProgramFault::OutOfMemory => Status::OutOfMemory,
            _ => Status::Refused,
        }
    }

    /// Writes its line to `err`; of refused words their text.
    fn write<V: Sink>(&self, err: &mut V) -> Result<(), WriteFault>
        ensures { Wrote result (program_fault_text self.now) (V.state err.old) (V.state err.new) }
    {
        match self {
            ProgramFault::Words(text) => write_bytes(text.as_bytes(), err),
            ProgramFault::WordIsNoText => write_bytes(b"ira: a word is not UTF-8\n", err),
            ProgramFault::File(fault) => fault.write(err),
            ProgramFault::CannotReadSome(names) => write_unread(names, err),
            ProgramFault::Command(fault) => fault.write(err),
            ProgramFault::CannotWriteLog(folder, place) => write_unwritten(folder, *place, err),
            ProgramFault::CannotWrite(name) => write_naming(b"ira: cannot write ", name, err),
            ProgramFault::CannotWriteAnswer => write_bytes(b"ira: cannot write the answer\n", err),
            ProgramFault::OutOfMemory => write_bytes(b"ira: out of memory\n", err),
        }
    }

    /// Writes its line to `err`, and this after it.
    #[tactic(auto, using(ira_event::proofs::Writing::writes))]
    fn write_with<V: Sink>(&self, more: &[u8], err: &mut V) -> Result<(), WriteFault>
        ensures { Wrote result (program_fault_text self.now ++ more.now) (V.state err.old) (V.state err.new) }
    {
        self.write(err)?;
        write_bytes(more, err)
    }
}

// The end of a line that names a folder: the name of the log of a place in it.
fn log_in_folder(folder: &str, place: u8) -> Line
    ensures { result ≡ slash_after folder.now ++ decimal place ++ codes ".log\n" }
{
    let mut line = Line::new();
    line.add(slash_after(folder).as_bytes());
    line.add_number(u32::from(place));
    line.add(b".log\n");
    line
}

#[tactic(auto, using(ira_event::proofs::Writing::writes))]
fn write_unwritten<V: Sink>(folder: &str, place: u8, err: &mut V) -> Result<(), WriteFault>
    ensures { Wrote result (unwritten_text folder.now place) (V.state err.old) (V.state err.new) }
{
    write_bytes(b"ira: cannot write ", err)?;
    write_shown(folder, err)?;
    log_in_folder(folder, place).write(err)
}

// A line for each file that isn't read.
fn write_unread<A: Allocator, V: Sink>(names: &[FileName<A>], err: &mut V) -> Result<(), WriteFault>
    ensures { Wrote result (flat_map unread_text names.now) (V.state err.old) (V.state err.new) }
{
    for name in names {
        write_naming(b"ira: cannot read ", name.as_str(), err)?;
    }
    Ok(())
}

/// The number of the status that the program ends with. A fault is written to `err`, and what is told after it; where
/// `err` fails the status stays.
#[tactic(auto, using(crate::proofs::Reporting::reported))]
pub(crate) fn report_outcome<A: Allocator, V: Sink>(
    outcome: Result<Status, ProgramFault<'_, A>>,
    more: &[u8],
    err: &mut V,
) -> u8
    ensures number { result ≡ outcome_number outcome.entry }
    ensures reported { ReportsOutcome outcome.entry more.now (V.state err.old) (V.state err.new) }
{
    match outcome {
        Ok(status) => status.number(),
        Err(fault) => {
            let _ = fault.write_with(more, err);
            fault.status().number()
        }
    }
}

impl<'a, A: Allocator> From<FileFault<A>> for ProgramFault<'a, A> {
    ghost from_gives = { λ f c. c ≡ fault.File f };

    fn from(fault: FileFault<A>) -> ProgramFault<'a, A> {
        ProgramFault::File(fault)
    }
}

impl<'a, A: Allocator> From<ShowFault> for ProgramFault<'a, A> {
    ghost from_gives = { λ f c. c ≡ show_fault f };

    fn from(fault: ShowFault) -> ProgramFault<'a, A> {
        match fault {
            ShowFault::Write => ProgramFault::CannotWriteAnswer,
            ShowFault::WrongColumns => ProgramFault::Command(CommandFault::WrongColumns),
            ShowFault::OutOfMemory => ProgramFault::OutOfMemory,
        }
    }
}

impl<'a, A: Allocator> From<OutOfMemory> for ProgramFault<'a, A> {
    ghost from_gives = { λ _ c. c ≡ fault.OutOfMemory };

    fn from(_refused: OutOfMemory) -> ProgramFault<'a, A> {
        ProgramFault::OutOfMemory
    }
}

impl<'a, A: Allocator> From<AllocError> for ProgramFault<'a, A> {
    ghost from_gives = { λ _ c. c ≡ fault.OutOfMemory };

    fn from(_refused: AllocError) -> ProgramFault<'a, A> {
        ProgramFault::OutOfMemory
    }
}

impl<'a, A: Allocator, T: Drop> From<AllocFailed<T>> for ProgramFault<'a, A> {
    ghost from_gives = { λ _ c. c ≡ fault.OutOfMemory };

    fn from(_refused: AllocFailed<T>) -> ProgramFault<'a, A> {
        ProgramFault::OutOfMemory
    }
}

impl<'a, A: Allocator> From<WordsFault> for ProgramFault<'a, A> {
    ghost from_gives = { λ f c. c ≡ words_fault f };

    fn from(fault: WordsFault) -> ProgramFault<'a, A> {
        match fault {
            WordsFault::Refused(text) => ProgramFault::Words(text),
            WordsFault::OutOfMemory => ProgramFault::OutOfMemory,
        }
    }
}
