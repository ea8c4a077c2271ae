ghost use Rattle.std.specs.Prelude.{◌≡◌, ℕ, IfOk, List, length, map, true};
ghost use Rattle.ira_audit.specs.Judged.{IsJudged};
ghost use Rattle.ira_commands.specs.Answers.{Answers};
ghost use Rattle.ira_commands.specs.Given.{file_of};
ghost use Rattle.ira_commands.specs.LogsCommand.{needs_texts};
ghost use Rattle.ira_main.specs.FilesRead.{Gives};
ghost use Rattle.ira_main.specs.Given.{IsUnread, OfFiles};

use crate::file_fault::Answered;
use crate::given::{Inputs, named_file, read_given};
use crate::read_files::{FoundLogs, named_texts};
use crate::source_names::paths;
use ira_audit::Judged;
use ira_commands::{GivenFiles, LogsCommand, Reply, answer};
use ira_event::OutOfMemory;
use ira_main_files::{FileName, TextSource};
use ira_view_page::NamedText;
use std::alloc::Allocator;
use std::thread::Threads;

/// The reply to a command on files that were read: logs in files of these names, which were judged, with these texts where
/// they were kept, a question and a certificate.
pub(crate) fn answer_read<A: Allocator + Clone>(
    alloc: A,
    command: LogsCommand<'_>,
    question: NamedText<'_>,
    certificate: NamedText<'_>,
    names: &[FileName<A>],
    texts: &[Vec<u8, A>],
    judged: Judged<A>,
) -> Result<Reply<A>, OutOfMemory>
    requires { (given : List (List ℕ)) × IsJudged given judged × (length given ≡ length names.now)
        × (needs_texts command ≡ true → map (λ text. text.items) texts.now ≡ given) }
    ensures { (given : List (List ℕ)) → IsJudged given judged
        → (needs_texts command.entry ≡ true → map (λ text. text.items) texts.now ≡ given)
        → IfOk result (Answers A command.entry (record {
          question = file_of question.entry;
          certificate = file_of certificate.entry;
          names = names.now;
          texts = given;
        })) }
{
    let logs = named_texts(alloc.clone()?, names, texts)?;
    let files = GivenFiles {
        question,
        certificate,
        names: paths(&alloc, names)?,
        logs: &logs,
    };
    answer(alloc, command, files, judged)
}

/// What comes of a command on the files that it asks for. The texts of logs are kept only where it needs them.
pub(crate) fn answer_files<R, A, F>(
    rt: &R,
    alloc: A,
    command: LogsCommand<'_>,
    inputs: Inputs<'_, '_>,
    shelf: &F,
) -> Result<Answered<A>, OutOfMemory>
where
    R: Threads + Sync,
    A: Allocator + Clone + Send + Sync,
    F: TextSource + Sync,
    ensures { Gives result
        (OfFiles F.reads inputs.entry.made inputs.entry.question inputs.entry.certificate inputs.entry.logs.now shelf.now
        (Answers A command.entry))
        (IsUnread F.reads inputs.entry.made inputs.entry.question inputs.entry.certificate inputs.entry.logs.now
        shelf.now) }
{
    match read_given(rt, &alloc, inputs, command.needs_texts(), shelf)? {
        Ok(given) => {
            let asked = match inputs.asked(&alloc, given.names.len())? {
                Ok(text) => text,
                Err(refused) => return Ok(Ok(refused)),
            };
            let FoundLogs { audit, texts } = given.logs;
            let question = inputs.question(&asked, given.question.bytes());
            let certificate = named_file(inputs.certificate, given.certificate.bytes());
            let (names, judged) = (&given.names, audit.judge()?);
            Ok(Ok(answer_read(alloc, command, question, certificate, names, &texts, judged)?))
        }
        Err(fault) => Ok(Err(fault)),
    }
}
