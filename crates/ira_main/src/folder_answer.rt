ghost use Rattle.std.specs.Prelude.{◌≡◌, ◌++◌, ℕ, IfOk, List, OnOk, length, map, string_bytes};
ghost use Rattle.ira_audit.specs.Judged.{IsJudged};
ghost use Rattle.ira_event.specs.Sink.{Wrote};
ghost use Rattle.ira_main.specs.Each.{HasFolderTexts, IsExplained, IsFolderFault, IsTold, TellsJudged};
ghost use Rattle.ira_main.specs.FilesRead.{Gives, HasFound};
ghost use Rattle.ira_main.specs.FolderText.{IsFolderText, IsTellable, features_of, folder_line, is_no};
ghost use Rattle.ira_main.specs.Judge.{has_reasons};
ghost use Rattle.ira_view.specs.declared.form.Form.TheVariants.{Json};

use crate::answer_files::answer_read;
use crate::file_fault::{FileFault, write_naming};
use crate::judge_files::{AskedLogs, asked_of, expected_by};
use crate::judged_folder::{JudgedFolder, judge_as_expected};
use crate::leaders_file::leaders_in;
use crate::read_files::{FoundLogs, read_in_turn};
use crate::shown_name::write_shown;
use crate::source_names::source_names;
use ira_audit::Judged;
use ira_commands::LogsCommand;
use ira_event::{MemorySink, OutOfMemory, Sink, WriteFault, write_bytes};
use ira_main_cli::LogSource;
use ira_main_files::{FileName, TextSource};
use ira_view::{Form, Status};
use ira_view_json::{RunFeatures, folder_answer_line, unread_line};
use ira_view_page::NamedText;
use std::alloc::Allocator;

/// What comes of the logs in a folder: what they are judged to be; or the file that can't be read, or is one of leaders and
/// has a line that is that of no place.
pub(crate) type FolderAnswer<A> = Result<JudgedFolder, FileName<A>>;

/// That, and what is printed of the folder.
#[derive(Drop)]
pub(crate) struct ToldFolder<A: Allocator> {
    pub(crate) answer: FolderAnswer<A>,
    pub(crate) text: MemorySink<A>,
}

/// Whether the answer is no, or a yes and their election isn't as expected.
pub(crate) fn is_no<A: Allocator>(answer: &FolderAnswer<A>) -> bool
    ensures { result ≡ is_no answer.now }
{
    match answer {
        Ok(judged) => matches!(judged.status(), Status::No),
        Err(_) => false,
    }
}

/// What the run had, where that is asked.
pub(crate) fn features_of<A: Allocator>(answer: &FolderAnswer<A>) -> Option<RunFeatures>
    ensures { result ≡ features_of answer.now }
{
    match answer {
        Ok(judged) => judged.features,
        Err(_) => None,
    }
}

/// Writes the line of a folder.
#[tactic(auto, using(ira_event::proofs::Writing::writes))]
fn write_line<A: Allocator, W: Sink>(
    folder: &str,
    answer: &FolderAnswer<A>,
    sink: &mut W,
) -> Result<(), WriteFault>
    requires { IsTellable answer.now }
    ensures { Wrote result (folder_line folder.now answer.now) (W.state sink.old) (W.state sink.new) }
{
    write_shown(folder, sink)?;
    write_bytes(b": ", sink)?;
    match answer {
        Ok(judged) => judged.write(sink),
        Err(name) => write_naming(b"cannot read ", name.as_str(), sink),
    }
}

/// The line of a folder as JSON.
fn json<A: Allocator + Clone>(
    alloc: A,
    folder: &str,
    answer: &FolderAnswer<A>,
) -> Result<String<A>, OutOfMemory>
    requires { IsTellable answer.now }
    ensures { IfOk result (λ text. IsFolderText Json folder.now answer.now (string_bytes text)) }
{
    match answer {
        Ok(judged) => {
            let status = judged.status().number();
            folder_answer_line(alloc, folder, &judged.answer, status)
        }
        Err(name) => unread_line(alloc, Some(folder), name.as_str(), Status::Refused.number()),
    }
}

/// What is told of a folder of which this comes: its line.
fn told<A: Allocator + Clone>(
    alloc: A,
    form: Form,
    folder: &str,
    answer: FolderAnswer<A>,
) -> Result<ToldFolder<A>, OutOfMemory>
    requires { IsTellable answer }
    ensures { IfOk result (λ told. (told.answer ≡ answer) × IsFolderText form folder.now answer told.text.bytes) }
{
    let mut text = MemorySink::new(alloc.clone()?);
    let written = match form {
        Form::Json => {
            let line = json(alloc, folder, &answer)?;
            write_bytes(line.as_bytes(), &mut text)
        }
        Form::Words => write_line(folder, &answer, &mut text),
    };
    match written {
        Ok(()) => Ok(ToldFolder { answer, text }),
        Err(WriteFault) => Err(OutOfMemory),
    }
}

/// What was read in a folder.
#[derive(Drop)]
struct FolderTexts<A: Allocator> {
    /// The places in the file of leaders; none where none is named.
    leaders: Vec<u64, A>,
    names: Vec<FileName<A>, A>,
    logs: FoundLogs<A>,
}

/// Reads the file of leaders, if one is named, and the logs in a folder, whose texts are kept where reasons are due.
fn read_folder<A: Allocator + Clone, F: TextSource>(
    alloc: &A,
    asked: AskedLogs<'_, '_>,
    folder: &str,
    shelf: &F,
) -> Result<Result<FolderTexts<A>, FileFault<A>>, OutOfMemory>
    ensures { Gives result
        (HasFolderTexts F.reads asked.entry.expected.now (has_reasons asked.entry.detail) shelf.now folder.entry)
        (IsFolderFault F.reads asked.entry.expected.now shelf.now folder.entry) }
{
    let source = LogSource::Folder(folder);
    let leaders = match leaders_in(alloc, &asked.expected.leaders, &source, shelf)? {
        Ok(places) => places,
        Err(fault) => return Ok(Err(fault)),
    };
    let names = match source_names(alloc, &source, shelf)? {
        Ok(names) => names,
        Err(fault) => return Ok(Err(fault)),
    };
    match read_in_turn(alloc, &names, asked.has_reasons(), shelf)? {
        Ok(logs) => Ok(Ok(FolderTexts {
            leaders,
            names,
            logs,
        })),
        Err(fault) => Ok(Err(fault)),
    }
}

/// Adds what `explain` prints of logs in files of these names, which were judged; nothing where that is refused.
fn add_reasons<A: Allocator + Clone>(
    alloc: A,
    command: LogsCommand<'_>,
    names: &[FileName<A>],
    texts: &[Vec<u8, A>],
    judged: Judged<A>,
    text: &mut MemorySink<A>,
) -> Result<(), OutOfMemory>
    requires { (given : List (List ℕ)) × IsJudged given judged × (length given ≡ length names.now)
        × (map (λ text. text.items) texts.now ≡ given) }
    ensures { (given : List (List ℕ)) → IsJudged given judged → map (λ text. text.items) texts.now ≡ given
        → OnOk result ((why : List ℕ) × IsExplained A command.entry names.now given why
        × (text.new.bytes ≡ text.old.bytes ++ why)) }
{
    let nothing = NamedText {
        name: "",
        text: b"",
    };
    let reply = answer_read(alloc, command, nothing, nothing, names, texts, judged)?;
    if reply.fault().is_some() {
        return Ok(());
    }
    match reply.out().write(text) {
        Ok(()) => Ok(()),
        Err(_) => Err(OutOfMemory),
    }
}

/// What is told of the logs in a folder that were read: its line, and below that of a no, where reasons are due, those.
fn tell_read<A: Allocator + Clone>(
    alloc: &A,
    asked: AskedLogs<'_, '_>,
    folder: &str,
    read: FolderTexts<A>,
) -> Result<ToldFolder<A>, OutOfMemory>
    requires { (texts : List (List ℕ)) × HasFound (has_reasons asked.detail) read.logs texts
        × (length texts ≡ length read.names.items) }
    ensures { (texts : List (List ℕ)) → HasFound (has_reasons asked.entry.detail) read.logs texts
        → IfOk result (λ told. TellsJudged A asked.entry.form asked.entry.expected.now asked.entry.detail
        asked.entry.is_summed read.leaders.items read.names.items texts folder.now told.answer told.text.bytes) }
{
    let FoundLogs { audit, texts } = read.logs;
    let judged = audit.judge()?;
    let expected = expected_by(asked.expected, &read.leaders);
    let answer = judge_as_expected(alloc.clone()?, expected, asked.is_summed, &judged)?;
    let mut told = told(alloc.clone()?, asked.form, folder, Ok(answer))?;
    if !asked.has_reasons() || !is_no(&told.answer) {
        return Ok(told);
    }
    let command = asked_of(asked.detail, asked.form, expected);
    add_reasons(
        alloc.clone()?,
        command,
        &read.names,
        &texts,
        judged,
        &mut told.text,
    )?;
    Ok(told)
}

/// Judges the logs in a folder together, and tells of them.
pub(crate) fn tell_folder<A: Allocator + Clone, F: TextSource>(
    alloc: &A,
    asked: AskedLogs<'_, '_>,
    folder: &str,
    shelf: &F,
) -> Result<ToldFolder<A>, OutOfMemory>
    ensures { IfOk result (λ told. IsTold A F.reads asked.entry.form asked.entry.expected.now asked.entry.detail
        asked.entry.is_summed shelf.now folder.entry told.answer told.text.bytes) }
{
    match read_folder(alloc, asked, folder, shelf)? {
        Ok(read) => tell_read(alloc, asked, folder, read),
        Err(fault) => told(alloc.clone()?, asked.form, folder, Err(fault.into_name())),
    }
}
