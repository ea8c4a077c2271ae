ghost use Rattle.std.specs.Prelude.{◌≡◌, ◌≢◌, ◌≤◌, ℕ, [], IfOk, List, None, Some, length, map};
ghost use Rattle.std.specs.List.{AllZip};
ghost use Rattle.ira_audit.specs.AskedQuestion.{AreFoundOf};
ghost use Rattle.ira_audit.specs.CheckAnswer.{AreSound, IsFirstUnsound};
ghost use Rattle.ira_audit.specs.QuestionFitsLogs.{QuestionFitsLogs};
ghost use Rattle.ira_audit.specs.Refusal.{IsCertificateRefusal, IsSectionsRefusal};
ghost use Rattle.ira_elim.specs.Found.{IsFound};
ghost use Rattle.ira_pred.specs.declared.ask_fault.AskFault.{AskFault};
ghost use Rattle.ira_view_page.specs.Counts.{counts};
ghost use Rattle.ira_view_page.specs.Lines.{IsLine};
ghost use Rattle.ira_view_page.specs.Page.{Added, AddedSome};
ghost use Rattle.ira_view_explain_question.specs.AskedLines.{line_text};
ghost use Rattle.ira_view_explain_question.specs.Explanation.{AreCasesExplained, AreFindingsExplained};
ghost use Rattle.ira_view_explain_question.specs.Explanation.{IsNoCertificateExplained};
ghost use Rattle.ira_view_explain_question.specs.Explanation.{IsNoQuestionExplained, IsSectionExplained};
ghost use Rattle.ira_view_explain_question.specs.Explanation.{IsSizeExplained, IsStopExplained, IsUnsoundExplained};

use crate::asked_files::AskedFiles;
use crate::asked_finding::AskedFinding;
use crate::asked_ring::AskedRing;
use crate::chosen_cases::{MOST_CASES, chosen_cases};
use crate::section_finding::SectionFinding;
use ira_audit::{AskedQuestion, Findings, Reason};
use ira_cert::{Section, SectionFault};
use ira_elim::Found;
use ira_event::{Logs, OutOfMemory};
use ira_pred::AskFault;
use ira_view_page::{Emphasis, Evidence, Explanation, NamedText, Page, RingCounts, hints_of};
use ira_view_show::print_run;
use std::alloc::Allocator;

/// Why what was found for a question about the logs of a ring is as it is, of one case or of the first ones: an empty
/// line, and then each case with the states of the first moment that meets it, or why there is no such moment. Cases
/// count from 0.
pub fn explain_found<A: Allocator + Clone>(
    alloc: A,
    files: AskedFiles<'_>,
    asked: &AskedQuestion<'_, A>,
    findings: &Findings<A>,
    case: Option<u64>,
) -> Result<Explanation<A>, OutOfMemory>
    requires asked { QuestionFitsLogs (map (λ log. log.text.now) files.logs.now) files.question.now.text.now
        asked.now.logs asked.now.question }
    requires found { AreFoundOf asked.now findings.now }
    ensures { IfOk result (AreFindingsExplained files.entry asked.now findings.now case) }
{
    let ring = AskedRing {
        alloc: &alloc,
        files,
        asked,
    };
    match findings {
        Findings::Refused(_) => unreachable!(),
        Findings::Cases { found, .. } => explain_cases(&ring, found, case),
    }
}

/// Why what was found for each case is as it is, of the one of a number or of the first ones.
fn explain_cases<A: Allocator + Clone>(
    ring: &AskedRing<'_, A>,
    found: &[Found<A>],
    named: Option<u64>,
) -> Result<Explanation<A>, OutOfMemory>
    requires { AllZip (IsFound ring.now.asked.now.logs) ring.now.asked.now.question.cases found.now }
    ensures { IfOk result (AreCasesExplained ring.now.files ring.now.asked.now found.now named) }
{
    let chosen = chosen_cases(ring.alloc, found, named)?;
    let mut page = Page::new(ring.alloc.clone()?);
    let mut cases = Vec::new(ring.alloc.clone()?);
    let told = &chosen[..chosen.len().min(MOST_CASES)];
    for number in told {
        let case = ring.case(*number);
        case.print(&mut page, &found[*number])?;
        cases.push(case.asked_case()?)?;
    }
    ring.print_rest(&mut page, named, chosen.len());
    Ok(Explanation {
        page: page.finish()?,
        ring: Some(RingCounts::of(ring.logs())),
        state_before: None,
        evidence: Vec::new(ring.alloc.clone()?),
        hints: Vec::new(ring.alloc.clone()?),
        cases,
    })
}

/// Why a text with this fault is no question's: in which line of its file. Logs give numbers of nodes and events.
pub fn explain_no_question<A: Allocator + Clone>(
    alloc: A,
    question: &NamedText<'_>,
    fault: AskFault,
    logs: &Logs<A>,
) -> Result<Explanation<A>, OutOfMemory>
    requires { fault ≢ AskFault.OutOfMemory }
    ensures ring { IfOk result (λ explanation. explanation.ring ≡ Some (counts logs.now)) }
    ensures told { IfOk result (IsNoQuestionExplained question.now fault) }
{
    let finding = AskedFinding::of_question(question, fault);
    explain_text(&alloc, question, finding, logs)
}

/// Why a certificate isn't one for the ring of a question: in which lines of its file.
pub fn explain_no_certificate<A: Allocator + Clone>(
    alloc: A,
    files: AskedFiles<'_>,
    asked: &AskedQuestion<'_, A>,
    certificate: &NamedText<'_>,
    reason: Reason,
) -> Result<Explanation<A>, OutOfMemory>
    requires { IsCertificateRefusal certificate.now.text.now (length asked.now.logs) reason }
    ensures ring { IfOk result (λ explanation. explanation.ring ≡ Some (counts asked.now.logs)) }
    ensures told { IfOk result (IsNoCertificateExplained certificate.now reason) }
{
    let logs = asked.logs();
    match reason {
        Reason::Certificate(fault) => {
            let finding = AskedFinding::of_certificate(certificate, fault);
            explain_text(&alloc, certificate, finding, logs)
        }
        _ => explain_size(alloc, files.logs, certificate, logs),
    }
}

/// Why a certificate for the ring of a question doesn't answer it: the first section that isn't sound, or that there is
/// another number of sections than of cases.
pub fn explain_unsound<A: Allocator + Clone>(
    alloc: A,
    files: AskedFiles<'_>,
    asked: &AskedQuestion<'_, A>,
    certificate: &NamedText<'_>,
    sections: &[Section<A>],
    reason: Reason,
) -> Result<Explanation<A>, OutOfMemory>
    requires { IsSectionsRefusal asked.now.logs asked.now.question.cases sections.now reason }
    ensures ring { IfOk result (λ explanation. explanation.ring ≡ Some (counts asked.now.logs)) }
    ensures told { IfOk result
        (IsUnsoundExplained asked.now certificate.now.name.now sections.now reason) }
{
    let ring = AskedRing {
        alloc: &alloc,
        files,
        asked,
    };
    match reason {
        Reason::Section { case, fault } => {
            explain_section(&ring, certificate.name, sections, case, fault)
        }
        _ => explain_count(&ring),
    }
}

/// Of how many cases and steps a yes is, after how the run of the logs stands.
pub fn explain_sound<A: Allocator + Clone>(
    alloc: A,
    asked: &AskedQuestion<'_, A>,
    sections: &[Section<A>],
) -> Result<Explanation<A>, OutOfMemory>
    requires { AreSound asked.now.logs asked.now.question.cases sections.now }
    ensures ring { IfOk result (λ explanation. explanation.ring ≡ Some (counts asked.now.logs)) }
    ensures state { IfOk result (λ explanation. explanation.state_before ≡ None) }
    ensures evidence { IfOk result (λ explanation. explanation.evidence.items ≡ []) }
{
    let add = |steps: usize, section: &Section<A>| steps.saturating_add(section.steps.len());
    let steps = sections.iter().fold(0, add);
    let mut text = Page::new(&alloc);
    text.number_of(sections.len(), "case");
    text.words(", ");
    text.number_of(steps, "step");
    text.words(": no moment of any order of these events met any case.");
    let mut page = Page::after_answer(alloc.clone()?);
    print_run(&alloc, asked.logs(), &mut page)?;
    page.paragraph_of(&text);
    let (evidence, hints) = (Vec::new(alloc.clone()?), Vec::new(alloc.clone()?));
    Explanation::of_page(
        &alloc,
        Some(RingCounts::of(asked.logs())),
        page,
        evidence,
        hints,
    )
}

/// Why a text is no question's or no certificate's.
fn explain_text<A: Allocator + Clone>(
    alloc: &A,
    file: &NamedText<'_>,
    finding: AskedFinding<'_>,
    logs: &Logs<A>,
) -> Result<Explanation<A>, OutOfMemory>
    ensures ring { IfOk result (λ explanation. explanation.ring ≡ Some (counts logs.now)) }
    ensures told { IfOk result (IsStopExplained file.now finding.entry.stop) }
{
    let mut evidence = Vec::new(alloc.clone()?);
    evidence.push(finding.stop.evidence(alloc, file)?)?;
    let hints = hints_of(alloc, finding.hint.as_ref())?;
    let mut page = Page::after_answer(alloc.clone()?);
    finding.stop.print(file, "two", &mut page);
    if finding.is_section_line {
        page.line(
            Emphasis::Plain,
            "`drop NODE POS by OTHER OTHERPOS` or `spent NODE`",
        );
    }
    if finding.hint.is_some() {
        page.blank();
    }
    Explanation::of_page(alloc, Some(RingCounts::of(logs)), page, evidence, hints)
}

/// Adds `FILE:LINE: TEXT` to a page.
fn print_line<A: Allocator>(mark: Emphasis, file: &NamedText<'_>, number: usize, page: &mut Page<A>)
    ensures { (bytes : List ℕ) × (1 ≤ number → IsLine file.now.text.now number bytes)
        × Added page.old (line_text mark file.now.name.now number bytes) page.new }
{
    page.begin(mark);
    page.place(file.name, number);
    page.words(": ");
    page.quote(file.line(number));
    page.end();
}

/// Adds the second line of the first of some files, where there is one.
fn print_first_size<A: Allocator>(files: &[NamedText<'_>], page: &mut Page<A>)
    ensures { AddedSome page.old page.new }
{
    if let Some(first) = files.first() {
        print_line(Emphasis::Plain, first, 2, page);
    }
}

/// By which lines a question or a certificate and the logs in these files are of rings of different sizes.
pub fn explain_size<A: Allocator + Clone>(
    alloc: A,
    files: &[NamedText<'_>],
    file: &NamedText<'_>,
    logs: &Logs<A>,
) -> Result<Explanation<A>, OutOfMemory>
    ensures ring { IfOk result (λ explanation. explanation.ring ≡ Some (counts logs.now)) }
    ensures told { IfOk result (IsSizeExplained file.now) }
{
    let mut evidence = Vec::new(alloc.clone()?);
    evidence.push(Evidence::Line(file.quoted_line(&alloc, 2)?))?;
    if let Some(first) = files.first() {
        evidence.push(Evidence::Line(first.quoted_line(&alloc, 2)?))?;
    }
    let hints = Vec::new(alloc.clone()?);
    let mut page = Page::after_answer(alloc.clone()?);
    print_line(Emphasis::Named, file, 2, &mut page);
    print_first_size(files, &mut page);
    Explanation::of_page(&alloc, Some(RingCounts::of(logs)), page, evidence, hints)
}

/// Why the section of a case isn't sound, which is the first of these that isn't.
fn explain_section<A: Allocator + Clone>(
    ring: &AskedRing<'_, A>,
    certificate: &str,
    sections: &[Section<A>],
    case: usize,
    fault: SectionFault,
) -> Result<Explanation<A>, OutOfMemory>
    requires { IsFirstUnsound ring.now.asked.now.logs ring.now.asked.now.question.cases sections.now case fault }
    ensures ring { IfOk result (λ explanation. explanation.ring ≡ Some (counts ring.now.asked.now.logs)) }
    ensures told { IfOk result
        (IsSectionExplained ring.now.asked.now certificate.now sections.now case fault) }
{
    let case = ring.case(case);
    let finding = SectionFinding::find(&case, sections, fault)?;
    let mut page = Page::after_answer(ring.alloc.clone()?);
    finding.print(certificate, &mut page);
    let evidence = finding.evidence(ring.alloc, certificate)?;
    let hints = Vec::new(ring.alloc.clone()?);
    Explanation::of_page(
        ring.alloc,
        Some(RingCounts::of(ring.logs())),
        page,
        evidence,
        hints,
    )
}

/// That a certificate has another number of sections than the question has cases.
fn explain_count<A: Allocator + Clone>(
    ring: &AskedRing<'_, A>,
) -> Result<Explanation<A>, OutOfMemory>
    ensures ring { IfOk result (λ explanation. explanation.ring ≡ Some (counts ring.now.asked.now.logs)) }
    ensures told { IfOk result
        (λ explanation. (explanation.state_before ≡ None) × (explanation.evidence.items ≡ [])) }
{
    let page = Page::after_answer(ring.alloc.clone()?);
    let mut hints = Vec::new(ring.alloc.clone()?);
    hints.push(String::from_str(
        ring.alloc.clone()?,
        "the certificate is of another question: `ira decide --out` writes one for this.",
    )?)?;
    let evidence = Vec::new(ring.alloc.clone()?);
    Explanation::of_page(
        ring.alloc,
        Some(RingCounts::of(ring.logs())),
        page,
        evidence,
        hints,
    )
}
