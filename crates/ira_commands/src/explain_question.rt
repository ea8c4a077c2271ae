ghost use Rattle.std.specs.Prelude.{IfOk};
ghost use Rattle.ira_audit.specs.Findings.{AreReportable};
ghost use Rattle.ira_audit.specs.Judged.{IsJudged};
ghost use Rattle.ira_view.specs.Texts.{texts_of};
ghost use Rattle.ira_commands.specs.Check.{ChecksTexts};
ghost use Rattle.ira_commands.specs.Decide.{DecidesTexts};
ghost use Rattle.ira_commands.specs.Explain.{ExplainsCheck};
ghost use Rattle.ira_commands.specs.ExplainQuestion.{ExplainsFindings, PrintsFindings};

use crate::explain::tell_view;
use crate::reply::Reply;
use ira_audit::Judged;
use ira_event::{MemorySink, OutOfMemory};
use ira_view::{
    AskedFiles, FindingsView, Form, Status, explain_certified, explain_findings,
    write_findings_view_as,
};
use ira_view_page::NamedText;
use std::alloc::Allocator;

/// Findings, and why they are so, in words or as JSON.
fn tell_findings<A: Allocator + Clone>(
    alloc: A,
    form: Form,
    view: &FindingsView<A>,
) -> Result<Reply<A>, OutOfMemory>
    requires { AreReportable view.now.findings }
    ensures { IfOk result (PrintsFindings form view.now.findings view.now.explanation) }
{
    let mut text = MemorySink::new(alloc.clone()?);
    let Ok(()) = write_findings_view_as(alloc, form, view, &mut text) else {
        return Err(OutOfMemory);
    };
    Ok(Reply::printed(Status::of_findings(&view.findings), text))
}

/// What is found for a question about logs, in these files, and why it is so: of the case of a number, counted from 0, or of
/// the first ones.
pub(crate) fn explain_asked<A: Allocator + Clone>(
    alloc: A,
    form: Form,
    case: Option<u64>,
    files: AskedFiles<'_>,
    judged: &Judged<A>,
) -> Result<Reply<A>, OutOfMemory>
    requires { IsJudged (texts_of files.logs.now) judged.now }
    ensures { IfOk result (DecidesTexts {A = A} (ExplainsFindings form case files.entry)
        files.entry.question.now.text.now (texts_of files.entry.logs.now)) }
{
    let view = explain_findings(alloc.clone()?, files, judged, case)?;
    tell_findings(alloc, form, &view)
}

/// The answer of logs, of a question and of a certificate, in these files, and why it is so. No thread is started.
pub(crate) fn explain_certificate<A: Allocator + Clone>(
    alloc: A,
    form: Form,
    files: AskedFiles<'_>,
    certificate: &NamedText<'_>,
    judged: &Judged<A>,
) -> Result<Reply<A>, OutOfMemory>
    requires { IsJudged (texts_of files.logs.now) judged.now }
    ensures { IfOk result (ChecksTexts (ExplainsCheck A form files.entry certificate.now)
        files.entry.question.now.text.now certificate.now.text.now (texts_of files.entry.logs.now)) }
{
    let view = explain_certified(alloc.clone()?, files, certificate, judged)?;
    tell_view(alloc, form, &view, None)
}
