ghost use Rattle.std.specs.Prelude.{IfOk, List, ℕ};
ghost use Rattle.ira_audit.specs.CheckAnswer.{IsCheckAnswer};
ghost use Rattle.ira_audit.specs.Judged.{IsJudged};
ghost use Rattle.ira_audit.specs.Refusal.{answered};
ghost use Rattle.ira_audit.specs.Report.{IsReportable};
ghost use Rattle.ira_commands.specs.Check.{ChecksTexts};
ghost use Rattle.ira_commands.specs.Reply.{ReportsAs};

use crate::reply::Reply;
use ira_audit::{Answer, Judged, Refusal};
use ira_event::OutOfMemory;
use ira_view::Form;
use std::alloc::Allocator;

/// Whether nothing stands against the texts that were judged, against a question or its certificate.
fn certify<A: Allocator + Clone>(
    judged: &Judged<A>,
    question: &[u8],
    certificate: &[u8],
) -> Result<(), Refusal>
    ensures { (texts : List (List ℕ)) → IsJudged texts judged.now
        → IfOk (answered result) (λ a. IsCheckAnswer texts question.now certificate.now a × IsReportable a) }
{
    let asked = judged.ask(question)?;
    let certificate = asked.read_certificate(certificate)?;
    asked.check_alone(&certificate)
}

/// The answer of logs, of a question and of a certificate. No thread is started.
pub(crate) fn check_alone<A: Allocator + Clone>(
    alloc: A,
    form: Form,
    question: &[u8],
    certificate: &[u8],
    judged: &Judged<A>,
) -> Result<Reply<A>, OutOfMemory>
    requires { (texts : List (List ℕ)) × IsJudged texts judged.now }
    ensures { (texts : List (List ℕ)) → IsJudged texts judged.now
        → IfOk result (ChecksTexts (ReportsAs form) question.now certificate.now texts) }
{
    match certify(judged, question, certificate) {
        Ok(()) => Reply::of_answer_as(alloc, form, &Answer::Yes),
        Err(Refusal::No(reason)) => Reply::of_answer_as(alloc, form, &Answer::No(reason)),
        Err(Refusal::OutOfMemory) => Err(OutOfMemory),
    }
}
