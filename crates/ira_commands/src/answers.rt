ghost use Rattle.std.specs.Prelude.{◌≡◌, IfOk, List, length, true, ℕ};
ghost use Rattle.ira_audit.specs.Judged.{IsJudged};
ghost use Rattle.ira_view.specs.Texts.{AreFiles, texts_of};
ghost use Rattle.ira_commands.specs.Answers.{Answers};
ghost use Rattle.ira_commands.specs.Given.{given_of};
ghost use Rattle.ira_commands.specs.LogsCommand.{needs_texts};

use crate::check::check_alone;
use crate::decide::decide_asked;
use crate::expected::answer_expected;
use crate::explain::explain_all;
use crate::explain_expected::explain_expected;
use crate::explain_question::{explain_asked, explain_certificate};
use crate::given_files::GivenFiles;
use crate::logs::answer_logs;
use crate::logs_command::LogsCommand;
use crate::reply::Reply;
use crate::show::show_ring;
use ira_audit::Judged;
use ira_event::OutOfMemory;
use ira_view::AskedFiles;
use std::alloc::Allocator;

/// What comes of a command on logs that were judged. No thread is started.
pub fn answer<A: Allocator + Clone>(
    alloc: A,
    command: LogsCommand<'_>,
    given: GivenFiles<'_, A>,
    judged: Judged<A>,
) -> Result<Reply<A>, OutOfMemory>
    requires judged { (texts : List (List ℕ)) × IsJudged texts judged × (length given.names.items ≡ length texts) }
    requires kept { needs_texts command ≡ true → IsJudged (texts_of given.logs.now) judged }
    ensures { (names texts : List (List ℕ)) → IsJudged texts judged
        → (needs_texts command.entry ≡ true → AreFiles names texts given.entry.logs.now)
        → IfOk result (Answers A command.entry (given_of given.entry.question given.entry.certificate names texts)) }
{
    let GivenFiles {
        question,
        certificate,
        names,
        logs,
    } = given;
    match command {
        LogsCommand::Answer { form } => answer_logs(alloc, form, &judged),
        LogsCommand::Expect { form, expected } => answer_expected(alloc, form, expected, &judged),
        LogsCommand::Explain { form } => explain_all(alloc, form, logs, &judged),
        LogsCommand::ExplainExpected { form, expected } => {
            explain_expected(alloc, form, expected, logs, &judged)
        }
        LogsCommand::Decide {
            form,
            is_brief,
            certify,
        } => decide_asked(alloc, form, is_brief, certify, question.text, &judged),
        LogsCommand::ExplainQuestion { form, case } => {
            let asked = AskedFiles {
                logs,
                question: &question,
            };
            explain_asked(alloc, form, case, asked, &judged)
        }
        LogsCommand::Check { form } => {
            check_alone(alloc, form, question.text, certificate.text, &judged)
        }
        LogsCommand::ExplainCheck { form } => {
            let asked = AskedFiles {
                logs,
                question: &question,
            };
            explain_certificate(alloc, form, asked, &certificate, &judged)
        }
        LogsCommand::Show(form, moment) => {
            show_ring(alloc, form, &moment, question.text, names, logs, judged)
        }
    }
}
