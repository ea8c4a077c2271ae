ghost use Rattle.std.specs.Prelude.{◌≡◌, ◌≤◌, ◌+◌, ℕ, IfOk, List, None, Some, false};
ghost use Rattle.ira_audit.specs.RingAudit.{HasTaken};
ghost use Rattle.ira_view.specs.Form.{json_form};
ghost use Rattle.ira_commands.specs.Answers.{Answers};
ghost use Rattle.ira_commands.specs.Check.{ChecksTexts};
ghost use Rattle.ira_commands.specs.Judging.{JudgesLog};
ghost use Rattle.ira_commands.specs.Reply.{Reports, ReportsAs};
ghost use Rattle.ira_commands.specs.declared.logs_command.LogsCommand.TheVariants.{Check};
ghost use Rattle.ira_main_cli.specs.declared.question_source.QuestionSource.TheVariants.{File};
ghost use Rattle.ira_main_files.specs.ReadText.{IsReadTo};
ghost use Rattle.ira_main.specs.Explain.{ExplainsInput};
ghost use Rattle.ira_main.specs.FilesRead.{Gives};
ghost use Rattle.ira_main.specs.Given.{IsUnread, OfFiles};
ghost use Rattle.ira_main.specs.Judge.{IsExpectedBy, IsUnjudged, JudgesFiles, asked_of, has_reasons};
ghost use Rattle.ira_main.specs.Serve.{IsInputFault, OfInput};

use crate::answer_files::answer_files;
use crate::file_fault::{Answered, FileFault};
use crate::given::{Given, Inputs, read_given};
use crate::leaders_file::leaders_in;
use crate::show_command::leaders_of;
use ira_audit::audit_one;
use ira_commands::{Expected, LogsCommand, Reply, RingLeaders, explain_one};
use ira_event::{MAX_TEXT, OutOfMemory};
use ira_links::OpenGate;
use ira_main_cli::{CheckRequest, Expectation, FolderDetail, LogSource, QuestionSource};
use ira_main_files::{CountingReader, FileName, Shelf, ShelfFault, TextBuffer, TextSource};
use ira_view::Form;
use ira_view_page::NamedText;
use std::alloc::Allocator;
use std::io::Read;
use std::sync::Wait;
use std::thread::Threads;
use std::time::Clock;

/// The text that the input has left, to its end or to one byte more than `MAX_TEXT`.
fn read_input<A: Allocator + Clone, I: Read>(
    alloc: A,
    input: &mut CountingReader<I>,
) -> Result<Result<TextBuffer<A>, FileFault<A>>, OutOfMemory>
    ensures text { Gives result (IsReadTo (MAX_TEXT + 1) input.old input.new) (IsInputFault input.new) }
    ensures reads { input.new.reads ≤ input.old.reads + (MAX_TEXT + 1) }
{
    let mut text = TextBuffer::new(alloc.clone()?);
    match text.fill(input) {
        Ok(()) => Ok(Ok(text)),
        Err(ShelfFault::OutOfMemory) => Err(OutOfMemory),
        Err(_) => Ok(Err(FileFault::Unread(FileName::given(alloc, "-")?))),
    }
}

/// Judges the log on the input.
pub(crate) fn judge_input<A: Allocator + Clone, I: Read>(
    alloc: A,
    input: &mut CountingReader<I>,
) -> Result<Answered<A>, OutOfMemory>
    ensures judged { Gives result (OfInput (JudgesLog Reports) input.old input.new) (IsInputFault input.new) }
    ensures reads { input.new.reads ≤ input.old.reads + (MAX_TEXT + 1) }
{
    match read_input(alloc.clone()?, input)? {
        Ok(text) => {
            let answer = audit_one(alloc.clone()?, text.bytes())?;
            Ok(Ok(Reply::of_answer(alloc, &answer)?))
        }
        Err(fault) => Ok(Err(fault)),
    }
}

/// Judges the log on the input, and says why the answer is as it is.
pub(crate) fn explain_input<A: Allocator + Clone, I: Read>(
    alloc: A,
    form: Form,
    input: &mut CountingReader<I>,
) -> Result<Answered<A>, OutOfMemory>
    ensures judged { Gives result (OfInput (ExplainsInput A form) input.old input.new) (IsInputFault input.new) }
    ensures reads { input.new.reads ≤ input.old.reads + (MAX_TEXT + 1) }
{
    match read_input(alloc.clone()?, input)? {
        Ok(text) => {
            let log = NamedText {
                name: "-",
                text: text.bytes(),
            };
            Ok(Ok(explain_one(alloc, form, &log)?))
        }
        Err(fault) => Ok(Err(fault)),
    }
}

/// What words expect of an election; these places are those of the file of leaders.
pub(crate) fn expected_by<'t>(expectation: &'t Expectation<'_>, read: &'t [u64]) -> Expected<'t>
    ensures { IsExpectedBy expectation.now read.now result }
{
    Expected {
        is_over: expectation.is_over,
        leaders: leaders_of(&expectation.leaders, read),
    }
}

/// What words ask of logs.
#[derive(Clone, Copy)]
pub(crate) struct AskedLogs<'t, 'a> {
    pub(crate) form: Form,
    /// What is expected of their election.
    pub(crate) expected: &'t Expectation<'a>,
    /// Whether reasons are due as well.
    pub(crate) detail: FolderDetail,
    /// Whether it is asked how many runs had what.
    pub(crate) is_summed: bool,
}

impl AskedLogs<'_, '_> {
    pub(crate) fn has_reasons(&self) -> bool
        ensures { result ≡ has_reasons self.now.detail }
    {
        matches!(self.detail, FolderDetail::Reasons)
    }
}

/// What is asked of logs, of whose election this is expected.
pub(crate) fn asked_of<'t>(
    detail: FolderDetail,
    form: Form,
    expected: Expected<'t>,
) -> LogsCommand<'t>
    ensures { result ≡ asked_of detail form expected.entry.is_over expected.entry.leaders }
{
    match (expected.is_over, expected.leaders, detail) {
        (false, RingLeaders::NotAsked, FolderDetail::Line) => LogsCommand::Answer { form },
        (false, RingLeaders::NotAsked, FolderDetail::Reasons) => LogsCommand::Explain { form },
        (_, _, FolderDetail::Line) => LogsCommand::Expect { form, expected },
        (_, _, FolderDetail::Reasons) => LogsCommand::ExplainExpected { form, expected },
    }
}

/// Judges the logs in the files that are named, and says why the answer is as it is, where that is asked.
pub(crate) fn judge_logs<R, A, F>(
    rt: &R,
    alloc: A,
    asked: AskedLogs<'_, '_>,
    logs: &LogSource<'_>,
    shelf: &F,
) -> Result<Answered<A>, OutOfMemory>
where
    R: Threads + Sync,
    A: Allocator + Clone + Send + Sync,
    F: TextSource + Sync,
    ensures { Gives result
        (JudgesFiles A F.reads asked.entry.detail asked.entry.form asked.entry.expected.now logs.now shelf.now)
        (IsUnjudged F.reads asked.entry.expected.now logs.now shelf.now) }
{
    let read = match leaders_in(&alloc, &asked.expected.leaders, logs, shelf)? {
        Ok(places) => places,
        Err(fault) => return Ok(Err(fault)),
    };
    let expected = expected_by(asked.expected, &read);
    let command = asked_of(asked.detail, asked.form, expected);
    answer_files(rt, alloc, command, Inputs::asking(None, logs, None), shelf)
}

/// The answer of logs, of a question and of a certificate that were read.
fn check_given<R, A>(
    rt: &R,
    alloc: A,
    check: &CheckRequest<'_>,
    given: Given<A>,
) -> Result<Reply<A>, OutOfMemory>
where
    R: Threads + Wait + Clock + Sync,
    A: Allocator + Clone + Send + Sync,
    requires depth { check.now.depth ≤ 4 }
    requires taken { (texts : List (List ℕ)) × HasTaken given.logs.audit texts }
    ensures { (texts : List (List ℕ)) → HasTaken given.logs.audit texts
        → IfOk result (ChecksTexts (ReportsAs (json_form check.now.is_json)) given.question given.certificate texts) }
{
    let logs = given.logs;
    let judged = logs.audit.judge()?;
    let (question, certificate) = (given.question.bytes(), given.certificate.bytes());
    let answer = judged.check(rt, question, certificate, check.depth, &OpenGate)?;
    Reply::of_answer_as(alloc, Form::of_json(check.is_json), &answer)
}

/// Judges logs with the question and the certificate in the files that are named.
pub(crate) fn check_files<R, A, F>(
    rt: &R,
    alloc: A,
    check: &CheckRequest<'_>,
    shelf: &F,
) -> Result<Answered<A>, OutOfMemory>
where
    R: Threads + Wait + Clock + Sync,
    A: Allocator + Clone + Send + Sync,
    F: Shelf + Sync,
    requires depth { check.now.depth ≤ 4 }
    ensures { Gives result
        (OfFiles F.reads None (Some (File check.now.question)) (Some check.now.certificate) check.now.logs shelf.now
        (Answers A (Check (json_form check.now.is_json))))
        (IsUnread F.reads None (Some (File check.now.question)) (Some check.now.certificate) check.now.logs shelf.now) }
{
    let inputs = Inputs {
        question: Some(QuestionSource::File(check.question)),
        certificate: Some(check.certificate),
        logs: &check.logs,
        made: None,
    };
    match read_given(rt, &alloc, inputs, false, shelf)? {
        Ok(given) => Ok(Ok(check_given(rt, alloc, check, given)?)),
        Err(fault) => Ok(Err(fault)),
    }
}
