ghost use Rattle.std.specs.Prelude.{◌≡◌, IfOk};
ghost use Rattle.ira_audit.specs.Judged.{IsJudged};
ghost use Rattle.ira_audit.specs.Refusal.{IsFindingsReason};
ghost use Rattle.ira_view_explain.specs.Counts.{ring_of};
ghost use Rattle.ira_view.specs.Explained.{IsNotAskedExplained};
ghost use Rattle.ira_view.specs.Texts.{texts_of};

use ira_audit::{Judged, Reason};
use ira_event::OutOfMemory;
use ira_view_explain::explain_logs;
use ira_view_explain_question::{AskedFiles, explain_no_question, explain_size};
use ira_view_page::Explanation;
use std::alloc::Allocator;

/// Why a question isn't asked of the ring of these logs: what stands against the logs, or else in which lines of the
/// question's file.
pub(crate) fn explain_not_asked<A: Allocator + Clone>(
    alloc: A,
    files: AskedFiles<'_>,
    judged: &Judged<A>,
    reason: Reason,
) -> Result<Explanation<A>, OutOfMemory>
    requires judged { IsJudged (texts_of files.logs.now) judged.now }
    requires reason { IsFindingsReason (texts_of files.logs.now) files.question.now.text.now reason }
    ensures ring { IfOk result (λ explanation. explanation.ring ≡ ring_of judged.now) }
    ensures why { IfOk result (IsNotAskedExplained files.entry judged.now reason) }
{
    let AskedFiles { logs, question } = files;
    match (judged, reason) {
        (Judged::Good(good), Reason::Question(fault)) => {
            explain_no_question(alloc, question, fault, good.logs())
        }
        (Judged::Good(good), Reason::QuestionSize) => {
            explain_size(alloc, logs, question, good.logs())
        }
        _ => explain_logs(alloc, logs, judged),
    }
}
