ghost use Rattle.std.specs.Prelude.{◌≡◌, ◌↔◌, IfOk, IsTrue, codes, option_map};
ghost use Rattle.ira_audit.specs.Judged.{IsJudged};
ghost use Rattle.ira_audit.specs.Report.{IsReportable, IsReportableReason};
ghost use Rattle.ira_view.specs.Texts.{texts_of};
ghost use Rattle.ira_view_election.specs.Election.{standing_of};
ghost use Rattle.ira_commands.specs.Explain.{AddsText, ExplainsAll, ExplainsBegun, ExplainsLog, ExplainsTexts, GoesOn};
ghost use Rattle.ira_commands.specs.Explain.{IsOfSameText, TellsNoRing};
ghost use Rattle.ira_commands.specs.Judging.{JudgesLog};
ghost use Rattle.ira_commands.specs.Reply.{ExplainsAs};

use crate::begun::{HEADING, begin_left, breaks_off, log_texts, name_texts};
use crate::reply::Reply;
use ira_audit::{Answer, Judged, Reason, Refusal, write_report};
use ira_event::{MemorySink, OutOfMemory, write_bytes};
use ira_view::{Form, Status, View, explain_text, explain_texts, take_texts, write_view_as};
use ira_view_election::Election;
use ira_view_page::NamedText;
use std::alloc::Allocator;

/// An answer, and why it is so, in words or as JSON, with how the election stands where that is known.
pub(crate) fn tell_view<'v, A: Allocator + Clone>(
    alloc: A,
    form: Form,
    view: &'v View<A>,
    election: Option<&'v Election<A>>,
) -> Result<Reply<A>, OutOfMemory>
    requires { IsReportable view.now.answer }
    ensures { IfOk result (ExplainsAs form view.now.explanation
        (option_map (λ election. standing_of election.now) election.entry) view.now.answer) }
{
    let mut text = MemorySink::new(alloc.clone()?);
    let Ok(()) = write_view_as(alloc, form, view, election, &mut text) else {
        return Err(OutOfMemory);
    };
    Ok(Reply::printed(Status::of_answer(&view.answer), text))
}

/// The answer of the text of one log alone, and why it is so.
pub fn explain_one<A: Allocator + Clone>(
    alloc: A,
    form: Form,
    log: &NamedText<'_>,
) -> Result<Reply<A>, OutOfMemory>
    ensures { IfOk result (JudgesLog (ExplainsLog A form log.now) log.now.text.now) }
{
    let view = explain_text(alloc.clone()?, log)?;
    tell_view(alloc, form, &view, None)
}

/// Writes the answer of the logs of a ring in these files, and why it is so.
fn write_explained<A: Allocator + Clone>(
    alloc: A,
    form: Form,
    logs: &[NamedText<'_>],
    judged: &Judged<A>,
    text: &mut MemorySink<A>,
) -> Result<Answer, OutOfMemory>
    requires { IsJudged (texts_of logs.now) judged.now }
    ensures reportable { IfOk result IsReportable }
    ensures text { IfOk result (λ answer. AddsText (ExplainsTexts A form logs.now answer) text.old text.new) }
{
    let ring = explain_texts(alloc.clone()?, logs, judged)?;
    let Ok(()) = write_view_as(alloc, form, &ring.view, ring.election.as_ref(), text) else {
        return Err(OutOfMemory);
    };
    Ok(ring.view.answer)
}

/// Whether a reason is of the text that an answer names.
fn is_of_same_text(reason: Reason, answer: &Answer) -> bool
    ensures { IsTrue result ↔ IsOfSameText reason answer.now }
{
    match (reason, *answer) {
        (Reason::Log { number, .. }, Answer::No(Reason::Log { number: named, .. })) => {
            number == named
        }
        _ => false,
    }
}

/// Writes for what reason files aren't what is left of the logs of one ring, but where it is of the text that the answer
/// which they had names.
fn write_no_ring<A: Allocator>(
    reason: Reason,
    first: &Answer,
    text: &mut MemorySink<A>,
) -> Result<(), OutOfMemory>
    requires { IsReportableReason reason }
    ensures { IfOk result (λ done. AddsText (TellsNoRing reason first.now) text.old text.new) }
{
    if is_of_same_text(reason, first) {
        return Ok(());
    }
    let Ok(()) = write_bytes(HEADING, text) else {
        return Err(OutOfMemory);
    };
    let Ok(()) = write_report(&Answer::No(reason), text) else {
        return Err(OutOfMemory);
    };
    Ok(())
}

/// Writes what is said of the greatest consistent beginning of what is left of logs in these files, which had this answer.
fn write_begun<A: Allocator + Clone>(
    alloc: A,
    logs: &[NamedText<'_>],
    first: &Answer,
    text: &mut MemorySink<A>,
) -> Result<(), OutOfMemory>
    ensures { IfOk result (λ done. AddsText (ExplainsBegun A logs.now first.now) text.old text.new) }
{
    let begun = match begin_left(alloc.clone()?, logs) {
        Ok(begun) => begun,
        Err(Refusal::No(reason)) => return write_no_ring(reason, first, text),
        Err(Refusal::OutOfMemory) => return Err(OutOfMemory),
    };
    let Ok(()) = write_bytes(HEADING, text) else {
        return Err(OutOfMemory);
    };
    let texts = log_texts(alloc.clone()?, &begun)?;
    let named = name_texts(alloc.clone()?, logs, &texts)?;
    let judged = take_texts(alloc.clone()?, &named)?.judge()?;
    write_explained(alloc, Form::Words, &named, &judged, text)?;
    Ok(())
}

/// Whether more is said than the answer and why it is so: in words, of texts that break off or begin with no head.
fn goes_on(form: Form, answer: &Answer) -> bool
    ensures { IsTrue result ↔ GoesOn form answer.now }
{
    match form {
        Form::Json => false,
        Form::Words => breaks_off(answer),
    }
}

/// The answer of the logs of a ring in these files, and why it is so. In words, where the text of a log breaks off, even in its
/// head, the same of what is left of the logs, as far as it fits together.
pub(crate) fn explain_all<A: Allocator + Clone>(
    alloc: A,
    form: Form,
    logs: &[NamedText<'_>],
    judged: &Judged<A>,
) -> Result<Reply<A>, OutOfMemory>
    requires { IsJudged (texts_of logs.now) judged.now }
    ensures { IfOk result (ExplainsAll A form logs.now) }
{
    let mut text = MemorySink::new(alloc.clone()?);
    let answer = write_explained(alloc.clone()?, form, logs, judged, &mut text)?;
    if goes_on(form, &answer) {
        write_begun(alloc, logs, &answer, &mut text)?;
    }
    Ok(Reply::printed(Status::of_answer(&answer), text))
}
