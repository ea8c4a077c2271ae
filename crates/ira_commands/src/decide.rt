ghost use Rattle.std.specs.Prelude.{Bool, IfOk, List, ℕ};
ghost use Rattle.ira_audit.specs.DecidedCases.{AreDecided};
ghost use Rattle.ira_audit.specs.Judged.{IsJudged};
ghost use Rattle.ira_audit.specs.declared.findings.Findings.{Findings as FindingsValue};
ghost use Rattle.ira_commands.specs.Decide.{DecidesTexts, IsDecidedText, PrintsDecided};

use crate::command_fault::CommandFault;
use crate::decided_line::decided_line;
use crate::files::Files;
use crate::reply::Reply;
use ira_audit::{Answer, DecidedCases, Judged, Refusal};
use ira_event::{MemorySink, OutOfMemory, write_bytes};
use ira_pred::Case;
use ira_view::{Form, Status, write_decided_as};
use std::alloc::Allocator;

/// The text of what was found for these cases.
fn decided_text<A: Allocator + Clone>(
    alloc: A,
    form: Form,
    is_brief: bool,
    decided: &DecidedCases<A>,
    cases: &[Case<A>],
) -> Result<MemorySink<A>, OutOfMemory>
    ensures { (certify : Bool) (findings : FindingsValue A) → AreDecided certify findings decided.now
        → IfOk result (λ text. IsDecidedText form findings is_brief text.bytes) }
{
    let mut text = MemorySink::new(alloc.clone()?);
    if is_brief {
        let line = decided_line(alloc, &decided.cases, cases)?;
        let Ok(()) = write_bytes(line.bytes(), &mut text) else {
            return Err(OutOfMemory);
        };
        return Ok(text);
    }
    let Ok(()) = write_decided_as(alloc, form, decided, &mut text) else {
        return Err(OutOfMemory);
    };
    Ok(text)
}

/// What was found for these cases of a question, with the certificate where it is wanted.
fn tell_decided<A: Allocator + Clone>(
    alloc: A,
    form: Form,
    is_brief: bool,
    certify: bool,
    decided: DecidedCases<A>,
    cases: &[Case<A>],
) -> Result<Reply<A>, OutOfMemory>
    ensures { (findings : FindingsValue A) → AreDecided certify findings decided
        → IfOk result (PrintsDecided form is_brief certify findings) }
{
    let lines = decided_text(alloc, form, is_brief, &decided, cases)?;
    let DecidedCases {
        are_absent,
        certificate,
        ..
    } = decided;
    if !are_absent {
        return Ok(Reply::printed(Status::No, lines));
    }
    if !certify {
        return Ok(Reply::printed(Status::Yes, lines));
    }
    match certificate {
        Some(text) => Ok(Reply::printed(Status::Yes, lines).with_files(Files::Text(text))),
        None => Ok(Reply::refused_after(lines, CommandFault::CertificatePastLimits)),
    }
}

/// What is found for the question of a text, about logs, and its certificate where that is wanted. The steps of no case are
/// kept: they are counted, or written into the certificate's text.
pub(crate) fn decide_asked<A: Allocator + Clone>(
    alloc: A,
    form: Form,
    is_brief: bool,
    certify: bool,
    question: &[u8],
    judged: &Judged<A>,
) -> Result<Reply<A>, OutOfMemory>
    requires { (texts : List (List ℕ)) × IsJudged texts judged.now }
    ensures { (texts : List (List ℕ)) → IsJudged texts judged.now
        → IfOk result (DecidesTexts {A = A} (PrintsDecided form is_brief certify) question.now texts) }
{
    match judged.ask(question) {
        Ok(asked) => {
            let decided = asked.decide_counted(certify)?;
            tell_decided(alloc, form, is_brief, certify, decided, asked.cases())
        }
        Err(Refusal::No(reason)) => Reply::of_answer_as(alloc, form, &Answer::No(reason)),
        Err(Refusal::OutOfMemory) => Err(OutOfMemory),
    }
}
