ghost use Rattle.std.specs.Prelude.{◌≡◌, ◌++◌, Bool, IfOk, false, option_map, string_bytes, true};
ghost use Rattle.std.specs.List.{enumerate_from, flat_map};
ghost use Rattle.ira_event.specs.Sink.{Wrote};
ghost use Rattle.ira_audit.specs.DecidedCases.{AreDecided};
ghost use Rattle.ira_audit.specs.Findings.{AreReportable};
ghost use Rattle.ira_audit.specs.FindingsText.{decided_line, findings_text};
ghost use Rattle.ira_audit.specs.Report.{IsReportable, report_line};
ghost use Rattle.ira_audit.specs.declared.findings.Findings.{Findings};
ghost use Rattle.ira_view_election.specs.Election.{standing_of};
ghost use Rattle.ira_view_page.specs.Printable.{IsPrintable};
ghost use Rattle.ira_view.specs.declared.form.Form.TheVariants.{Json, Words};
ghost use Rattle.ira_view.specs.ViewText.{IsAnswerText, IsFindingsText, IsFindingsViewText, IsSumText, IsViewText, WroteText, sum_words};

use crate::findings_view::FindingsView;
use crate::form::Form;
use crate::status::Status;
use crate::view::View;
use ira_audit::{Answer, DecidedCases, write_findings, write_report};
use ira_event::{MemorySink, OutOfMemory, Sink, WriteFault, write_bytes};
use ira_view_election::Election;
use ira_view_json::{
    RunFeatures, answer_line, cases_lines, explained_findings_lines, explained_line, sum_line,
};
use ira_view_page::{Explanation, Page, PageText, ShowFault};
use std::alloc::Allocator;

/// Writes the line of an answer, and the page after it.
#[tactic(auto, using(ira_event::proofs::Writing::writes))]
pub fn write_view<W: Sink>(answer: &Answer, page: &[u8], sink: &mut W) -> Result<(), WriteFault>
    requires { IsReportable answer.now }
    ensures { Wrote result (report_line answer.now ++ page.now) (W.state sink.old) (W.state sink.new) }
{
    write_report(answer, sink)?;
    write_bytes(page, sink)
}

/// Writes the lines of findings, and the page after them.
#[tactic(auto, using(ira_event::proofs::Writing::writes))]
fn write_findings_view<A: Allocator, W: Sink>(
    view: &FindingsView<A>,
    sink: &mut W,
) -> Result<(), WriteFault>
    requires { AreReportable view.now.findings }
    ensures wrote { Wrote result (findings_text view.now.findings ++ view.now.explanation.page)
        (W.state sink.old) (W.state sink.new) }
    ensures printable { IsPrintable view.now.explanation.page }
{
    let page = view.explanation.page.bytes();
    write_findings(&view.findings, sink)?;
    write_bytes(page, sink)
}

/// The line of JSON of an answer that is explained.
pub(crate) fn view_line<'v, A: Allocator + Clone>(
    alloc: A,
    answer: &Answer,
    explanation: &'v Explanation<A>,
    election: Option<&'v Election<A>>,
) -> Result<String<A>, OutOfMemory>
    requires { IsReportable answer.now }
    ensures { IfOk result (λ line. IsViewText Json answer.now explanation.now
        (option_map (λ election. standing_of election.now) election.entry) (string_bytes line)) }
{
    let status = Status::of_answer(answer);
    explained_line(alloc, answer, status.number(), explanation, election)
}

/// Writes a text that was put together before.
fn write_text<W: Sink>(text: &[u8], sink: &mut W) -> Result<(), ShowFault>
    ensures { WroteText (λ written. written ≡ text.now) result (W.state sink.old) (W.state sink.new) }
{
    Ok(write_bytes(text, sink)?)
}

/// Writes an answer: its line, or JSON.
pub fn write_answer_as<A: Allocator + Clone, W: Sink>(
    alloc: A,
    form: Form,
    answer: &Answer,
    sink: &mut W,
) -> Result<(), ShowFault>
    requires { IsReportable answer.now }
    ensures { WroteText (IsAnswerText form answer.now) result (W.state sink.old) (W.state sink.new) }
{
    match form {
        Form::Json => {
            let status = Status::of_answer(answer);
            let line = answer_line(alloc, answer, status.number())?;
            write_text(line.as_bytes(), sink)
        }
        Form::Words => Ok(write_report(answer, sink)?),
    }
}

/// Writes an answer with why it is so: as a page after its line, or as JSON, with how the election stands where that is
/// known.
pub fn write_view_as<'v, A: Allocator + Clone, W: Sink>(
    alloc: A,
    form: Form,
    view: &'v View<A>,
    election: Option<&'v Election<A>>,
    sink: &mut W,
) -> Result<(), ShowFault>
    requires { IsReportable view.now.answer }
    ensures { WroteText (IsViewText form view.now.answer view.now.explanation
        (option_map (λ election. standing_of election.now) election.entry)) result
        (W.state sink.old) (W.state sink.new) }
{
    match form {
        Form::Json => {
            let line = view_line(alloc, &view.answer, &view.explanation, election)?;
            write_text(line.as_bytes(), sink)
        }
        Form::Words => Ok(write_view(&view.answer, view.explanation.page.bytes(), sink)?),
    }
}

/// The lines of findings, and the page after them.
fn findings_page<A: Allocator>(
    alloc: A,
    view: &FindingsView<A>,
) -> Result<MemorySink<A>, OutOfMemory>
    requires { AreReportable view.now.findings }
    ensures { IfOk result (λ text. IsFindingsViewText Words view.now.findings view.now.explanation text.bytes) }
{
    let mut text = MemorySink::new(alloc);
    match write_findings_view(view, &mut text) {
        Ok(()) => Ok(text),
        Err(WriteFault) => Err(OutOfMemory),
    }
}

/// Writes findings with why they are so, as a page after their lines or as JSON; all of it at once.
pub fn write_findings_view_as<A: Allocator + Clone, W: Sink>(
    alloc: A,
    form: Form,
    view: &FindingsView<A>,
    sink: &mut W,
) -> Result<(), ShowFault>
    requires { AreReportable view.now.findings }
    ensures { WroteText (IsFindingsViewText form view.now.findings view.now.explanation) result
        (W.state sink.old) (W.state sink.new) }
{
    match form {
        Form::Json => {
            let (findings, explanation) = (&view.findings, &view.explanation);
            let status = Status::of_findings(findings);
            let lines = explained_findings_lines(alloc, findings, status.number(), explanation)?;
            write_text(lines.as_bytes(), sink)
        }
        Form::Words => {
            let text = findings_page(alloc, view)?;
            write_text(text.bytes(), sink)
        }
    }
}

/// The lines of what was found for the cases of a question.
fn decided_lines<A: Allocator>(
    alloc: A,
    decided: &DecidedCases<A>,
) -> Result<MemorySink<A>, OutOfMemory>
    ensures { IfOk result (λ lines. lines.bytes ≡ flat_map decided_line (enumerate_from 0 decided.now.cases.items)) }
{
    let mut lines = MemorySink::new(alloc);
    match decided.write(&mut lines) {
        Ok(()) => Ok(lines),
        Err(WriteFault) => Err(OutOfMemory),
    }
}

/// Writes what was found for the cases of a question, as its lines or as JSON; all of it at once.
pub fn write_decided_as<A: Allocator + Clone, W: Sink>(
    alloc: A,
    form: Form,
    decided: &DecidedCases<A>,
    sink: &mut W,
) -> Result<(), ShowFault>
    ensures { (certify : Bool) (findings : Findings A) → AreDecided certify findings decided.now
        → WroteText (IsFindingsText form findings) result (W.state sink.old) (W.state sink.new) }
{
    match form {
        Form::Json => {
            let status = Status::of_absent(decided.are_absent);
            let lines = cases_lines(alloc, decided, status.number())?;
            write_text(lines.as_bytes(), sink)
        }
        Form::Words => {
            let lines = decided_lines(alloc, decided)?;
            write_text(lines.bytes(), sink)
        }
    }
}

/// The line on how many of these runs had what.
fn sum_page<A: Allocator>(alloc: A, runs: &[RunFeatures]) -> Result<PageText<A>, OutOfMemory>
    ensures { IfOk result (λ text. text ≡ sum_words runs.now) }
{
    let mut page = Page::new(alloc);
    page.words("of ");
    page.number(runs.len() as u64);
    page.words(" runs: ");
    page.number(runs.iter().filter(|run| run.tie).count() as u64);
    page.words(" with a tie, ");
    page.number(runs.iter().filter(|run| run.second_round).count() as u64);
    page.words(" with a second round, ");
    page.number(runs.iter().filter(|run| run.second_term).count() as u64);
    page.words(" with a second term, ");
    page.number(runs.iter().filter(|run| run.wake_up).count() as u64);
    page.words(" with a wake-up, ");
    page.number(runs.iter().filter(|run| run.dropped).count() as u64);
    page.words(" with a dropped message\n");
    page.finish()
}

/// Writes how many of these runs had what, where that is asked.
pub fn write_sum<A: Allocator + Clone, W: Sink>(
    alloc: A,
    is_asked: bool,
    form: Form,
    runs: &[RunFeatures],
    sink: &mut W,
) -> Result<(), ShowFault>
    ensures { WroteText (IsSumText is_asked form runs.now) result (W.state sink.old) (W.state sink.new) }
{
    if !is_asked {
        return Ok(());
    }
    match form {
        Form::Json => write_text(sum_line(alloc, runs)?.as_bytes(), sink),
        Form::Words => write_text(sum_page(alloc, runs)?.bytes(), sink),
    }
}
