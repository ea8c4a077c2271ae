ghost use Rattle.std.specs.Prelude.{◌≡◌, [], IfOk, None, Some, map};
ghost use Rattle.ira_event.specs.LogTextFault.{LogTextFault};
ghost use Rattle.ira_audit.specs.GoodLogs.{AreGood};
ghost use Rattle.ira_audit.specs.Judged.{IsJudged};
ghost use Rattle.ira_audit.specs.LogTextAnswer.{IsLogTextAnswer};
ghost use Rattle.ira_audit.specs.Refusal.{IsRingReason};
ghost use Rattle.ira_audit.specs.RefusedLogs.{AreRefused};
ghost use Rattle.ira_audit.specs.Report.{IsReportable};
ghost use Rattle.ira_replay.specs.LocalRun.{IsLocalRun};
ghost use Rattle.ira_view_page.specs.Counts.{counts};
ghost use Rattle.ira_view_explain.specs.Counts.{ring_of};
ghost use Rattle.ira_view_explain.specs.HeadsTold.{AreHeadsTold, AreLogFiles};
ghost use Rattle.ira_view_explain.specs.LogTold.{IsLogTold, IsStoppedTold};
ghost use Rattle.ira_view_explain.specs.Refused.{IsNoRingTold, IsRefusedTold, IsTold};
ghost use Rattle.ira_view_explain.specs.TextTold.{IsTextTold};

use crate::heads_finding::HeadsFinding;
use crate::numbered::numbered_page;
use crate::refused_finding::RefusedFinding;
use crate::ring_files::RingFiles;
use crate::stopped_log::StoppedLog;
use crate::text_finding::TextFinding;
use ira_audit::{Answer, Judged, Reason, RefusedLogs};
use ira_event::{HeadFault, LogFault, Logs, NodeLog, OutOfMemory, read_log};
use ira_node::NodeState;
use ira_order::EventAt;
use ira_replay::{ReplayFault, replay};
use ira_view_page::{Evidence, Explanation, NamedText, Page, RecordAt, RingCounts, hints_of};
use ira_view_show::print_run;
use std::alloc::Allocator;

/// How the run of logs stands against which there is no reason.
fn explain_good<A: Allocator + Clone>(
    alloc: &A,
    logs: &Logs<A>,
) -> Result<Explanation<A>, OutOfMemory>
    requires { AreGood logs.now }
    ensures ring { IfOk result (λ explanation. explanation.ring ≡ Some (counts logs.now)) }
    ensures state { IfOk result (λ explanation. explanation.state_before ≡ None) }
    ensures evidence { IfOk result (λ explanation. explanation.evidence.items ≡ []) }
{
    let mut page = Page::after_answer(alloc.clone()?);
    print_run(alloc, logs, &mut page)?;
    let (evidence, hints) = (Vec::new(alloc.clone()?), Vec::new(alloc.clone()?));
    Explanation::of_page(alloc, Some(RingCounts::of(logs)), page, evidence, hints)
}

/// What stands against the logs of a ring.
fn explain_refused<A: Allocator + Clone>(
    alloc: &A,
    files: &[NamedText<'_>],
    refused: &RefusedLogs<A>,
) -> Result<Explanation<A>, OutOfMemory>
    requires { AreRefused refused.now }
    ensures ring { IfOk result (λ explanation. explanation.ring ≡ Some (counts refused.now.logs)) }
    ensures told { IfOk result (λ explanation.
        IsRefusedTold files.now refused.now explanation.state_before explanation.evidence.items) }
{
    let ring = RingFiles {
        alloc,
        files,
        logs: refused.logs(),
    };
    let finding = RefusedFinding::find(&ring, refused)?;
    let mut page = Page::after_answer(alloc.clone()?);
    finding.print(&ring, &mut page);
    let mut explanation = Explanation::of_page(
        alloc,
        Some(RingCounts::of(refused.logs())),
        page,
        finding.evidence(&ring)?,
        finding.hints(&ring)?,
    )?;
    explanation.state_before = finding.state_before();
    Ok(explanation)
}

/// Why a text is no log's.
fn explain_text<A: Allocator + Clone>(
    alloc: &A,
    file: &NamedText<'_>,
    fault: LogFault,
) -> Result<Explanation<A>, OutOfMemory>
    requires { LogTextFault file.now.text.now fault }
    ensures ring { IfOk result (λ explanation. explanation.ring ≡ None) }
    ensures state { IfOk result (λ explanation. explanation.state_before ≡ None) }
    ensures told { IfOk result (λ explanation. IsTextTold file.now fault explanation.evidence.items) }
{
    let finding = TextFinding::find(file, fault);
    let mut page = Page::after_answer(alloc.clone()?);
    finding.stop.print(file, "four", &mut page);
    if let Some(forms) = finding.forms {
        page.blank();
        page.paragraph(forms);
    } else if finding.hint.is_some() {
        page.blank();
    }
    let mut evidence = Vec::new(alloc.clone()?);
    evidence.push(finding.stop.evidence(alloc, file)?)?;
    let hints = hints_of(alloc, finding.hint.as_ref())?;
    Explanation::of_page(alloc, None, page, evidence, hints)
}

/// Why logs aren't those of one ring.
fn explain_heads<A: Allocator + Clone>(
    alloc: &A,
    files: &[NamedText<'_>],
    fault: HeadFault,
) -> Result<Explanation<A>, OutOfMemory>
    requires { AreLogFiles files.now }
    ensures ring { IfOk result (λ explanation. explanation.ring ≡ None) }
    ensures state { IfOk result (λ explanation. explanation.state_before ≡ None) }
    ensures told { IfOk result (λ explanation. AreHeadsTold files.now explanation.evidence.items) }
{
    let finding = HeadsFinding::find(alloc, files, fault)?;
    let mut page = Page::after_answer(alloc.clone()?);
    finding.print(files, &mut page);
    Explanation::of_page(
        alloc,
        None,
        page,
        finding.evidence(alloc, files)?,
        hints_of(alloc, finding.hint.as_ref())?,
    )
}

/// Why texts aren't those of the logs of one ring.
fn explain_no_ring<A: Allocator + Clone>(
    alloc: &A,
    files: &[NamedText<'_>],
    reason: Reason,
) -> Result<Explanation<A>, OutOfMemory>
    requires { IsRingReason (map (λ file. file.text.now) files.now) reason }
    ensures ring { IfOk result (λ explanation. explanation.ring ≡ None) }
    ensures state { IfOk result (λ explanation. explanation.state_before ≡ None) }
    ensures told { IfOk result (λ explanation. IsNoRingTold files.now reason explanation.evidence.items) }
{
    match reason {
        Reason::Log { number, fault } => match files.get(number) {
            Some(file) => explain_text(alloc, file, fault),
            None => unreachable!(),
        },
        Reason::Heads(fault) => explain_heads(alloc, files, fault),
        _ => unreachable!(),
    }
}

/// Why the logs of a ring, or texts that should be them, are judged as they are: an empty line, and what stands in
/// which lines of which files, what is due there, the rule, and usual causes that the files point to.
pub fn explain_logs<A: Allocator + Clone>(
    alloc: A,
    files: &[NamedText<'_>],
    judged: &Judged<A>,
) -> Result<Explanation<A>, OutOfMemory>
    requires { IsJudged (map (λ file. file.text.now) files.now) judged.now }
    ensures ring { IfOk result (λ explanation. explanation.ring ≡ ring_of judged.now) }
    ensures told { IfOk result
        (λ explanation. IsTold files.now judged.now explanation.state_before explanation.evidence.items) }
{
    match judged {
        Judged::Good(logs) => explain_good(&alloc, logs.logs()),
        Judged::Refused(refused) => explain_refused(&alloc, files, refused),
        Judged::NoRing(reason) => explain_no_ring(&alloc, files, *reason),
    }
}

/// Why an event of a log that is judged alone has no step.
fn explain_stopped<A: Allocator + Clone>(
    alloc: &A,
    file: &str,
    log: &NodeLog<A>,
) -> Result<Explanation<A>, OutOfMemory>
    requires { ¬ (IsLocalRun log.now) }
    ensures ring { IfOk result (λ explanation. explanation.ring ≡ None) }
    ensures told { IfOk result
        (λ explanation. IsStoppedTold file.now log.now explanation.state_before explanation.evidence.items) }
{
    let Some(found) = StoppedLog::find(alloc, file, log)? else {
        unreachable!()
    };
    let mut page = Page::after_answer(alloc.clone()?);
    found.print(&mut page);
    if found.hint.is_some() {
        page.blank();
    }
    let at = EventAt {
        place: log.place(),
        position: found.evidence.fault.position,
    };
    let event = RecordAt::new(alloc.clone()?, file, at, found.stopped.event)?;
    let mut evidence = Vec::new(alloc.clone()?);
    evidence.push(Evidence::Faulty(event))?;
    let hints = hints_of(alloc, found.hint.as_ref())?;
    let mut explanation = Explanation::of_page(alloc, None, page, evidence, hints)?;
    explanation.state_before = Some(found.stopped.state);
    Ok(explanation)
}

/// How a log that is judged alone ends, in this state.
fn explain_end<A: Allocator + Clone>(
    alloc: &A,
    log: &NodeLog<A>,
    end: NodeState,
) -> Result<Explanation<A>, OutOfMemory>
    ensures ring { IfOk result (λ explanation. explanation.ring ≡ None) }
    ensures state { IfOk result (λ explanation. explanation.state_before ≡ None) }
    ensures evidence { IfOk result (λ explanation. explanation.evidence.items ≡ []) }
{
    let mut text = numbered_page(alloc, "The log of place ", u32::from(log.place()));
    text.numbered(" of ", u32::from(log.nodes().get()));
    text.words(": ");
    text.number_of(log.len(), "event");
    text.words(", each has a step. At its end: ");
    text.state(&end);
    text.words(". Nothing is said of the other nodes: give all logs to `ira explain`.");
    let mut page = Page::after_answer(alloc.clone()?);
    page.paragraph_of(&text);
    let (evidence, hints) = (Vec::new(alloc.clone()?), Vec::new(alloc.clone()?));
    Explanation::of_page(alloc, None, page, evidence, hints)
}

/// Judges the text of one log alone, and says why the answer is as it is.
pub fn explain_log<A: Allocator + Clone>(
    alloc: A,
    file: &NamedText<'_>,
) -> Result<(Answer, Explanation<A>), OutOfMemory>
    ensures answer { IfOk result (λ explained. IsLogTextAnswer file.now.text.now explained.0) }
    ensures reportable { IfOk result (λ explained. IsReportable explained.0) }
    ensures ring { IfOk result (λ explained. explained.1.ring ≡ None) }
    ensures told { IfOk result (λ explained.
        IsLogTold file.now explained.0 explained.1.state_before explained.1.evidence.items) }
{
    let log = match read_log(alloc.clone()?, file.text) {
        Ok(log) => log,
        Err(LogFault::OutOfMemory) => return Err(OutOfMemory),
        Err(fault) => {
            let answer = Answer::No(Reason::Log { number: 0, fault });
            return Ok((answer, explain_text(&alloc, file, fault)?));
        }
    };
    match replay(&log) {
        Ok(end) => Ok((Answer::Yes, explain_end(&alloc, &log, end)?)),
        Err(ReplayFault { position, fault }) => {
            let place = log.place();
            let answer = Answer::No(Reason::Replay {
                place,
                position,
                fault,
            });
            Ok((answer, explain_stopped(&alloc, file.name, &log)?))
        }
    }
}
