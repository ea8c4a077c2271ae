ghost use Rattle.std.specs.Prelude.{◌∷◌, IfOk, map, option_map, string_bytes};
ghost use Rattle.std.specs.List.{enumerate_from};
ghost use Rattle.ira_audit.specs.Findings.{AreReportable};
ghost use Rattle.ira_audit.specs.Report.{IsReportable};
ghost use Rattle.ira_view_election.specs.Election.{standing_of};
ghost use Rattle.ira_view_json.specs.AnswerValue.{answer_value, cases_values};
ghost use Rattle.ira_view_json.specs.ExplainedFindings.{explained_case, explained_decision, explained_findings};
ghost use Rattle.ira_view_json.specs.ExplainedValue.{explained_value};
ghost use Rattle.ira_view_json.specs.Line.{AreLinesOf, IsLineOf};

use crate::answer_values::{answered, case_line, decided_for, decision, has_met, has_present};
use ira_audit::{Answer, DecidedCases, Findings};
use ira_elim::Found;
use ira_event::OutOfMemory;
use ira_view_election::Election;
use ira_view_page::Explanation;
use std::alloc::Allocator;

/// The line of an answer, with the status that goes with it. The answer must not say that memory ran out.
pub fn answer_line<A: Allocator + Clone>(
    alloc: A,
    answer: &Answer,
    status: u8,
) -> Result<String<A>, OutOfMemory>
    requires { IsReportable answer.now }
    ensures { IfOk result (λ text. IsLineOf (answer_value status answer.now) (string_bytes text)) }
{
    answered(alloc, answer, status).into_line()
}

/// The line of an answer with its reason, what it rests on and its status, and how the election stands, where that is
/// known. The answer must not say that memory ran out.
pub fn explained_line<'v, A: Allocator + Clone, B: Allocator>(
    alloc: A,
    answer: &Answer,
    status: u8,
    explanation: &'v Explanation<B>,
    election: Option<&'v Election<B>>,
) -> Result<String<A>, OutOfMemory>
    requires { IsReportable answer.now }
    ensures { IfOk result (λ text. IsLineOf (explained_value status answer.now explanation.now
        (option_map (λ election. standing_of election.now) election.entry)) (string_bytes text)) }
{
    let mut object = answered(alloc, answer, status);
    object.reason_of(answer);
    object.explanation(explanation);
    object.election(election);
    object.into_line()
}

/// The lines of what is found for the cases of a question, with what that rests on and the status that goes with it.
fn explained_cases_lines<A: Allocator + Clone, B: Allocator, C: Allocator>(
    alloc: &A,
    found: &[Found<C>],
    status: u8,
    explanation: &Explanation<B>,
) -> Result<String<A>, OutOfMemory>
    ensures { IfOk result (λ text. AreLinesOf (explained_decision status found.now explanation.now
        ∷ map (explained_case explanation.now.cases.items) (enumerate_from 0 found.now)) (string_bytes text)) }
{
    let mut first = decision(alloc.clone()?, has_present(found), status);
    first.null("reason");
    first.explanation(explanation);
    let mut text = first.into_line()?;
    for (case, found) in found.iter().enumerate() {
        let line = case_line(alloc.clone()?, case as u64, found, &explanation.cases)?;
        text.push_str(line.as_str())?;
    }
    Ok(text)
}

/// The lines of what is found for the cases of a question, with the status that goes with it: one for all of them, and
/// one for each.
pub fn cases_lines<A: Allocator + Clone, B: Allocator>(
    alloc: A,
    decided: &DecidedCases<B>,
    status: u8,
) -> Result<String<A>, OutOfMemory>
    ensures { IfOk result (λ text. AreLinesOf
        (cases_values decided.now.nodes status decided.now.cases.items) (string_bytes text)) }
{
    let cases = decided.cases.as_slice();
    let mut first = decision(alloc.clone()?, has_met(cases), status);
    first.number("nodes", decided.nodes.get() as u64);
    let mut text = first.into_line()?;
    for (case, decided) in cases.iter().enumerate() {
        let line = decided_for(alloc.clone()?, case as u64, decided).into_line()?;
        text.push_str(line.as_str())?;
    }
    Ok(text)
}

/// The lines of findings with what they rest on, and the status that goes with them: for a refusal that of its answer
/// with its reason, else one for the decision, and one for each case, with what it asks where it is explained. The
/// reason must not say that memory ran out.
pub fn explained_findings_lines<A: Allocator + Clone, B: Allocator, C: Allocator>(
    alloc: A,
    findings: &Findings<C>,
    status: u8,
    explanation: &Explanation<B>,
) -> Result<String<A>, OutOfMemory>
    requires { AreReportable findings.now }
    ensures { IfOk result (λ text. AreLinesOf
        (explained_findings status findings.now explanation.now) (string_bytes text)) }
{
    match findings {
        Findings::Refused(reason) => {
            explained_line(alloc, &Answer::No(*reason), status, explanation, None)
        }
        Findings::Cases { found, .. } => {
            explained_cases_lines(&alloc, found, status, explanation)
        }
    }
}
