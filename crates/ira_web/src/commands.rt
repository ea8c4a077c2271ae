ghost use Rattle.std.specs.Prelude.{◌≡◌, IfOk, IfSome, length};
ghost use Rattle.ira_commands.specs.Judging.{JudgesLog};
ghost use Rattle.ira_commands.specs.Mend.{MendsTexts};
ghost use Rattle.ira_commands.specs.Reply.{Reports};
ghost use Rattle.ira_commands.specs.Upgrade.{UpgradesTexts};
ghost use Rattle.ira_view.specs.Texts.{texts_of};
ghost use Rattle.ira_web.specs.Serves.{AnswersAll, AnswersFiles, AreCommandFiles, widest_command};

use ira_audit::LogAudit;
use ira_commands::{
    GivenFiles, LogsCommand, Overview, OverviewQuestion, Reply, RingForm, RingMoment, answer,
    answer_overview, mend_left, take_left, upgrade_taken,
};
use ira_event::OutOfMemory;
use ira_view::{AskedFiles, Form, take_texts};
use ira_view_page::NamedText;
use std::alloc::{AllocError, Allocator};

/// The answer of the text of one log alone.
pub(crate) fn judge_log<A: Allocator + Clone>(
    alloc: A,
    log: &NamedText<'_>,
) -> Result<Reply<A>, OutOfMemory>
    ensures { IfOk result (JudgesLog Reports log.now.text.now) }
{
    Reply::of_answer(alloc, &LogAudit::new().finish(log.text))
}

/// The logs of these texts in version 2, where they are those of one ring.
pub(crate) fn upgrade<A: Allocator + Clone>(
    alloc: A,
    logs: &[NamedText<'_>],
) -> Result<Reply<A>, OutOfMemory>
    ensures { IfOk result (UpgradesTexts (texts_of logs.now)) }
{
    let audit = take_texts(alloc.clone()?, logs)?;
    upgrade_taken(alloc, audit)
}

/// Of what is left of the logs of a ring the longest beginnings such that all are consistent.
pub(crate) fn mend<A: Allocator + Clone>(
    alloc: A,
    is_initiator: bool,
    texts: &[NamedText<'_>],
) -> Result<Reply<A>, OutOfMemory>
    ensures { IfOk result (MendsTexts is_initiator (texts_of texts.now)) }
{
    let recorded = take_left(alloc.clone()?, texts)?;
    mend_left(alloc, is_initiator, recorded)
}

/// The names of files.
fn names<A: Allocator + Clone>(
    alloc: &A,
    files: &[NamedText<'_>],
) -> Result<Vec<String<A>, A>, AllocError>
    ensures { IfOk result (λ names. length names.items ≡ length files.now) }
{
    let mut names = Vec::with_capacity(alloc.clone()?, files.len())?;
    for file in files {
        names.push(String::from_str(alloc.clone()?, file.name)?)?;
    }
    Ok(names)
}

/// The files of a question and of a certificate, where a command has these, and those of the logs, which come after them;
/// nothing where one of the first is missing.
fn split_files<'f>(
    command: &LogsCommand<'_>,
    files: &'f [NamedText<'f>],
) -> Option<(NamedText<'f>, NamedText<'f>, &'f [NamedText<'f>])>
    ensures { IfSome result (λ parts. AreCommandFiles command.now files.now parts.0 parts.1 parts.2.now) }
{
    let none = NamedText {
        name: "",
        text: b"",
    };
    match command {
        LogsCommand::Answer { .. }
        | LogsCommand::Expect { .. }
        | LogsCommand::Explain { .. }
        | LogsCommand::ExplainExpected { .. }
        | LogsCommand::Show(_, RingMoment::AtEnd | RingMoment::AtCut(_)) => {
            Some((none, none, files))
        }
        LogsCommand::Decide { .. }
        | LogsCommand::ExplainQuestion { .. }
        | LogsCommand::Show(_, RingMoment::OfQuestion(_)) => {
            let [question, logs @ ..] = files else {
                return None;
            };
            Some((*question, none, logs))
        }
        LogsCommand::Check { .. } | LogsCommand::ExplainCheck { .. } => {
            let [question, certificate, logs @ ..] = files else {
                return None;
            };
            Some((*question, *certificate, logs))
        }
    }
}

/// What comes of a command on the logs of a ring; nothing where a file that it has is missing.
pub(crate) fn answer_command<A: Allocator + Clone>(
    alloc: A,
    command: LogsCommand<'_>,
    files: &[NamedText<'_>],
) -> Result<Option<Reply<A>>, OutOfMemory>
    ensures { IfOk result (λ served. IfSome served (AnswersFiles A command.entry files.now)) }
{
    let Some((question, certificate, logs)) = split_files(&command, files) else {
        return Ok(None);
    };
    let judged = take_texts(alloc.clone()?, logs)?.judge()?;
    let given = GivenFiles {
        question,
        certificate,
        names: names(&alloc, logs)?,
        logs,
    };
    Ok(Some(answer(alloc, command, given, judged)?))
}

/// The command of an overview that has each of its files.
fn widest_command<'v>(overview: &Overview<'v>) -> LogsCommand<'v>
    ensures { result ≡ widest_command overview.now.question overview.now }
{
    match overview.question {
        OverviewQuestion::NotAsked => {
            LogsCommand::Show(RingForm::Picture(overview.columns), overview.moment)
        }
        OverviewQuestion::Decided => LogsCommand::Decide {
            form: Form::Words,
            is_brief: false,
            certify: true,
        },
        OverviewQuestion::Certified => LogsCommand::Check { form: Form::Words },
    }
}

/// What comes of the commands of an overview; nothing where a file that they have is missing.
pub(crate) fn answer_all<A: Allocator + Clone>(
    alloc: A,
    overview: Overview<'_>,
    files: &[NamedText<'_>],
) -> Result<Option<Vec<Reply<A>, A>>, OutOfMemory>
    ensures { IfOk result (λ served. IfSome served (λ replies. AnswersAll A overview.entry files.now replies.items)) }
{
    let Some((question, certificate, logs)) = split_files(&widest_command(&overview), files) else {
        return Ok(None);
    };
    let judged = take_texts(alloc.clone()?, logs)?.judge()?;
    let asked = AskedFiles {
        logs,
        question: &question,
    };
    Ok(Some(answer_overview(alloc, overview, asked, &certificate, judged)?))
}
