ghost use Rattle.std.specs.Prelude.{IfOk};
ghost use Rattle.ira_audit.specs.Findings.{AreFindings, AreReportable};
ghost use Rattle.ira_audit.specs.Judged.{IsJudged};
ghost use Rattle.ira_audit.specs.QuestionFitsLogs.{QuestionFitsLogs};
ghost use Rattle.ira_view_explain_question.specs.Explanation.{AreFindingsExplained};
ghost use Rattle.ira_view.specs.Explained.{IsFindingsExplanation};
ghost use Rattle.ira_view.specs.Texts.{texts_of};

use crate::findings_view::FindingsView;
use crate::not_asked::explain_not_asked;
use ira_audit::{AskedQuestion, Findings, Judged, Refusal};
use ira_event::OutOfMemory;
use ira_view_explain_question::{AskedFiles, explain_found};
use std::alloc::Allocator;

/// Decides a question of judged logs, of one case or of the first ones, and says why what is found is so.
pub fn explain_findings<A: Allocator + Clone>(
    alloc: A,
    files: AskedFiles<'_>,
    judged: &Judged<A>,
    case: Option<u64>,
) -> Result<FindingsView<A>, OutOfMemory>
    requires { IsJudged (texts_of files.logs.now) judged.now }
    ensures found { IfOk result (λ view.
        AreFindings (texts_of files.entry.logs.now) files.entry.question.now.text.now view.findings) }
    ensures reportable { IfOk result (λ view. AreReportable view.findings) }
    ensures explained { IfOk result (λ view.
        IsFindingsExplanation files.entry judged.now case view.findings view.explanation) }
{
    match judged.ask(files.question.text) {
        Ok(asked) => explain_asked(alloc, files, &asked, case),
        Err(Refusal::No(reason)) => {
            let explanation = explain_not_asked(alloc, files, judged, reason)?;
            let findings = Findings::Refused(reason);
            Ok(FindingsView {
                findings,
                explanation,
            })
        }
        Err(Refusal::OutOfMemory) => Err(OutOfMemory),
    }
}

/// What is found for a question that is asked of good logs, and why.
fn explain_asked<A: Allocator + Clone>(
    alloc: A,
    files: AskedFiles<'_>,
    asked: &AskedQuestion<'_, A>,
    case: Option<u64>,
) -> Result<FindingsView<A>, OutOfMemory>
    requires { QuestionFitsLogs (texts_of files.logs.now) files.question.now.text.now
        asked.now.logs asked.now.question }
    ensures found { IfOk result (λ view.
        AreFindings (texts_of files.entry.logs.now) files.entry.question.now.text.now view.findings) }
    ensures reportable { IfOk result (λ view. AreReportable view.findings) }
    ensures explained { IfOk result (λ view.
        AreFindingsExplained files.entry asked.now view.findings case view.explanation) }
{
    let findings = asked.decide()?;
    let explanation = explain_found(alloc, files, asked, &findings, case)?;
    Ok(FindingsView {
        findings,
        explanation,
    })
}
