ghost use Rattle.std.specs.Prelude.{◌≡◌, ◌↔◌, ◌≤◌, ℕ, List, Ok, IfOk, IsOk, map};
ghost use Rattle.ira_event.specs.Result.{UnlessErr};
ghost use Rattle.ira_audit.specs.LogTextAnswer.{IsLogTextAnswer};
ghost use Rattle.ira_audit.specs.CheckAnswer.{IsCheckAnswer};
ghost use Rattle.ira_audit.specs.Findings.{AreFindings, AreReportable};
ghost use Rattle.ira_audit.specs.RingAnswer.{IsRingAnswer};
ghost use Rattle.ira_audit.specs.Never.{NoCaseIsMet};
ghost use Rattle.ira_audit.specs.QuestionFitsLogs.{WhyNoQuestion};
ghost use Rattle.ira_audit.specs.Report.{IsReportable};
ghost use Rattle.ira_audit.specs.TextRuns.{AreTextsOfRuns, AreTextsWithoutRun, IsOfRing};
ghost use Rattle.ira_audit.specs.declared.answer.Answer.{Answer};
ghost use Rattle.ira_audit.specs.declared.reason.Reason.{Reason};

use crate::answer::Answer;
use crate::findings::Findings;
use crate::log_audit::LogAudit;
use crate::ring_audit::RingAudit;
use ira_event::OutOfMemory;
use ira_links::Gate;
use std::alloc::Allocator;
use std::sync::Wait;
use std::thread::Threads;
use std::time::Clock;

/// Judges the text of one log alone: whether it is a log's, and then whether each event has a step.
/// It takes no memory, since each event has its step as it is read, and so it always answers.
pub fn audit_one<A: Allocator>(_alloc: A, text: &[u8]) -> Result<Answer, OutOfMemory>
    ensures answer { (a : Answer) → (result ≡ Ok a) ↔ IsLogTextAnswer text.now a }
    ensures answered { IsOk result }
    ensures reportable { IfOk result IsReportable }
{
    Ok(LogAudit::new().finish(text))
}

/// Judges the texts of a ring's logs, given in the order of its places: whether they are texts of
/// logs, whether these are the logs of one ring, match and have an order, and whether each event has a
/// step. The first reason against them is answered. No answer says that memory ran out.
///
/// After a yes the logs have an order, and each order of them is a run of the ring, with the draws that
/// were recorded. Where they don't match, have no order, or have an event without a step, no run of the
/// ring is a run of them.
///
/// Beside the logs themselves it takes memory for one order of their events, where one of these has no step.
pub fn audit_logs<A: Allocator + Clone>(alloc: A, texts: &[&[u8]]) -> Result<Answer, OutOfMemory>
    ensures answer { (a : Answer)
        → UnlessErr result (record {}) ((result ≡ Ok a) ↔ IsRingAnswer (map (λ text. text.now) texts.now) a) }
    ensures reportable { IfOk result IsReportable }
    ensures runs { result ≡ Ok Answer.Yes → AreTextsOfRuns (map (λ text. text.now) texts.now) }
    ensures no_run { (r : Reason) → IsOfRing r → result ≡ Ok (Answer.No r)
        → AreTextsWithoutRun (map (λ text. text.now) texts.now) }
{
    Ok(RingAudit::of_texts(alloc, texts)?.judge()?.answer())
}

/// Judges the texts of a ring's logs, given in the order of its places, the text of a question, and that
/// of a certificate, which may be anybody's. The first reason against them is answered: first those of
/// `audit_logs`, then whether the question is one of this ring, whether the certificate is one for this
/// ring and has a section for each case, and whether each section is sound for its case. No answer says
/// that memory ran out.
///
/// After a yes the logs have an order, each order of them is a run of the ring, with the draws that were
/// recorded, and nothing that the question asks was ever met: no consistent cut of the logs meets any of
/// its cases. The answer is the same at every depth, 0 to 4, and with every gate.
///
/// The steps of each section are cut into
/// `2^depth` parts, which are judged on up to as many threads, each after the gate, which it passes with its number from
/// the left.
///
/// Beside the logs it takes a byte or two for each event, two numbers for each sending and one for each receipt and, for one
/// case after the other, a list of the candidates of each node that the case asks.
pub fn audit<R, G, A>(
    rt: &R,
    alloc: A,
    texts: &[&[u8]],
    question: &[u8],
    certificate: &[u8],
    depth: u8,
    gate: &G,
) -> Result<Answer, OutOfMemory>
where
    R: Threads + Wait + Clock + Sync,
    G: Gate + Sync,
    A: Allocator + Clone + Send + Sync,
    requires { depth ≤ 4 }
    ensures answer { (a : Answer)
        → UnlessErr result (record {})
        ((result ≡ Ok a) ↔ IsCheckAnswer (map (λ text. text.now) texts.now) question.now certificate.now a) }
    ensures reportable { IfOk result IsReportable }
    // the headline
    ensures yes { result ≡ Ok Answer.Yes
        → NoCaseIsMet (map (λ text. text.now) texts.now) question.now certificate.now }
{
    let judged = RingAudit::of_texts(alloc, texts)?.judge()?;
    judged.check(rt, question, certificate, depth, gate)
}

/// Finds, for each case of a question about the logs of a ring, whether a consistent cut of them meets it: a
/// section that shows that none does, or the least one that does. The texts of the logs are given in the
/// order of the ring's places. Where `audit` has reasons against the logs or the question, the first of them
/// is answered instead. No answer says that memory ran out.
///
/// Beside the logs it takes a byte or two for each event, two numbers for each sending and one for each receipt and, for one
/// case after the other, a list of the candidates of each node that the case asks, and what is found.
pub fn decide_all<A: Allocator + Clone>(
    alloc: A,
    texts: &[&[u8]],
    question: &[u8],
) -> Result<Findings<A>, OutOfMemory>
    ensures refused { (r : Reason)
        → UnlessErr result (record {})
        ((result ≡ Ok (Findings.Refused r)) ↔ WhyNoQuestion (map (λ text. text.now) texts.now) question.now r) }
    ensures found { IfOk result (AreFindings (map (λ text. text.now) texts.now) question.now) }
    ensures reportable { IfOk result AreReportable }
{
    RingAudit::of_texts(alloc, texts)?.judge()?.decide(question)
}
