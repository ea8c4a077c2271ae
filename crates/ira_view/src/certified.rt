ghost use Rattle.std.specs.Prelude.{◌≡◌, IfOk, Some};
ghost use Rattle.ira_audit.specs.CheckAnswer.{IsCheckAnswer};
ghost use Rattle.ira_audit.specs.Judged.{IsJudged};
ghost use Rattle.ira_audit.specs.Report.{IsReportable};
ghost use Rattle.ira_view_page.specs.Counts.{counts};
ghost use Rattle.ira_view.specs.Explained.{IsCheckExplanation, IsPosed, IsSectionsExplanation};
ghost use Rattle.ira_view.specs.Texts.{texts_of};

use crate::not_asked::explain_not_asked;
use crate::view::View;
use ira_audit::{Answer, AskedQuestion, Judged, Refusal};
use ira_cert_text::Certificate;
use ira_event::OutOfMemory;
use ira_view_explain_question::{
    AskedFiles, explain_no_certificate, explain_sound, explain_unsound,
};
use ira_view_page::NamedText;
use std::alloc::Allocator;

/// Judges a certificate for a question about logs that were judged, and says why the answer is as it is. The sections are
/// judged one by one.
pub fn explain_certified<A: Allocator + Clone>(
    alloc: A,
    files: AskedFiles<'_>,
    certificate: &NamedText<'_>,
    judged: &Judged<A>,
) -> Result<View<A>, OutOfMemory>
    requires { IsJudged (texts_of files.logs.now) judged.now }
    ensures answer { IfOk result (λ view. IsCheckAnswer (texts_of files.entry.logs.now)
        files.entry.question.now.text.now certificate.now.text.now view.answer) }
    ensures reportable { IfOk result (λ view. IsReportable view.answer) }
    ensures explained { IfOk result (λ view.
        IsCheckExplanation files.entry certificate.now judged.now view.answer view.explanation) }
{
    let asked = match judged.ask(files.question.text) {
        Ok(asked) => asked,
        Err(Refusal::No(reason)) => {
            return Ok(View {
                answer: Answer::No(reason),
                explanation: explain_not_asked(alloc, files, judged, reason)?,
            });
        }
        Err(Refusal::OutOfMemory) => return Err(OutOfMemory),
    };
    match asked.read_certificate(certificate.text) {
        Ok(read) => explain_sections(alloc, files, certificate, &asked, &read),
        Err(Refusal::No(reason)) => Ok(View {
            answer: Answer::No(reason),
            explanation: explain_no_certificate(alloc, files, &asked, certificate, reason)?,
        }),
        Err(Refusal::OutOfMemory) => Err(OutOfMemory),
    }
}

/// Judges the sections of a certificate for a question that is asked of good logs, and says why the answer is as it is.
fn explain_sections<A: Allocator + Clone>(
    alloc: A,
    files: AskedFiles<'_>,
    certificate: &NamedText<'_>,
    asked: &AskedQuestion<'_, A>,
    read: &Certificate<A>,
) -> Result<View<A>, OutOfMemory>
    requires { IsPosed files certificate.now.text.now asked.now read.now }
    ensures answer { IfOk result (λ view. IsCheckAnswer (texts_of files.entry.logs.now)
        files.entry.question.now.text.now certificate.now.text.now view.answer) }
    ensures reportable { IfOk result (λ view. IsReportable view.answer) }
    ensures ring { IfOk result (λ view. view.explanation.ring ≡ Some (counts asked.now.logs)) }
    ensures explained { IfOk result (λ view. IsSectionsExplanation asked.now certificate.now.name.now
        read.now.sections view.answer view.explanation) }
{
    match asked.check_alone(read) {
        Ok(()) => Ok(View {
            answer: Answer::Yes,
            explanation: explain_sound(alloc, asked, &read.sections)?,
        }),
        Err(Refusal::No(reason)) => Ok(View {
            answer: Answer::No(reason),
            explanation: explain_unsound(alloc, files, asked, certificate, &read.sections, reason)?,
        }),
        Err(Refusal::OutOfMemory) => Err(OutOfMemory),
    }
}
