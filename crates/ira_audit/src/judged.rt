ghost use Rattle.std.specs.Prelude.{◌≡◌, ◌↔◌, ◌≤◌, ℕ, List, Ok, IfOk, MatchOption};
ghost use Rattle.ira_event.specs.Log.{Log};
ghost use Rattle.ira_event.specs.Logs.{AreLogs};
ghost use Rattle.ira_event.specs.Result.{UnlessErr};
ghost use Rattle.ira_order.specs.FaultyEvent.{AreFirstFaultyEvents};
ghost use Rattle.ira_audit.specs.CheckAnswer.{IsCheckAnswer};
ghost use Rattle.ira_audit.specs.Findings.{AreFindings, AreReportable};
ghost use Rattle.ira_audit.specs.GoodLogs.{AreGood};
ghost use Rattle.ira_audit.specs.Judged.{IsJudged};
ghost use Rattle.ira_audit.specs.LogTexts.{AreLogTexts};
ghost use Rattle.ira_audit.specs.Never.{NoCaseIsMet};
ghost use Rattle.ira_audit.specs.QuestionFitsLogs.{QuestionFitsLogs, WhyNoQuestion};
ghost use Rattle.ira_audit.specs.Refusal.{IsFindingsReason, MatchRefusal, answered};
ghost use Rattle.ira_audit.specs.RefusedLogs.{IsReasonOf};
ghost use Rattle.ira_audit.specs.ReplayedLogs.{IsSearched};
ghost use Rattle.ira_audit.specs.Report.{IsReportable};
ghost use Rattle.ira_audit.specs.RingAnswer.{IsRingAnswer};
ghost use Rattle.ira_audit.specs.TextRuns.{AreTextsOfRuns, AreTextsWithoutRun, IsOfRing};
ghost use Rattle.ira_audit.specs.declared.answer.Answer.{Answer};
ghost use Rattle.ira_audit.specs.declared.reason.Reason.{Reason};

use crate::answer::Answer;
use crate::asked_question::AskedQuestion;
use crate::findings::Findings;
use crate::good_logs::GoodLogs;
use crate::reason::Reason;
use crate::refusal::{Refusal, answer_of};
use crate::refused_logs::RefusedLogs;
use ira_event::{Logs, OutOfMemory};
use ira_links::Gate;
use ira_order::{FaultyEvent, OrderFault};
use std::alloc::Allocator;
use std::sync::Wait;
use std::thread::Threads;
use std::time::Clock;

/// What the texts of a ring's logs are judged to be.
#[derive(Drop)]
pub enum Judged<A: Allocator> {
    /// Their logs, against which there is no reason.
    Good(GoodLogs<A>),
    /// Their logs, which are those of no run, and why.
    Refused(RefusedLogs<A>),
    /// Why they aren't those of the logs of one ring.
    NoRing(Reason),
}

/// The first reason against logs, by what the search for an order of them gave and by their first events without a step.
fn first_reason(
    order: Result<(), OrderFault>,
    faulty_events: &[FaultyEvent],
) -> Result<Option<Reason>, OutOfMemory>
    ensures { (logs : List Log) → AreLogs logs → IsSearched logs order
        → AreFirstFaultyEvents logs faulty_events.now
        → IfOk result (λ reason. MatchOption reason (AreGood logs) (IsReasonOf logs)) }
{
    match order {
        Err(fault) => match fault {
            OrderFault::Match(fault) => Ok(Some(Reason::Match(fault))),
            OrderFault::Circle => Ok(Some(Reason::Circle)),
            OrderFault::OutOfMemory => Err(OutOfMemory),
        },
        Ok(()) => match faulty_events.first() {
            None => Ok(None),
            Some(event) => Ok(Some(Reason::Replay {
                place: event.at.place,
                position: event.at.position,
                fault: event.fault,
            })),
        },
    }
}

impl<A: Allocator + Clone> Judged<A> {
    /// What the logs of a ring are, of which these are the first events without a step, and for which the search for an
    /// order gave this.
    pub(crate) fn new(
        logs: Logs<A>,
        faulty_events: Vec<FaultyEvent, A>,
        order: Result<(), OrderFault>,
    ) -> Result<Judged<A>, OutOfMemory>
        requires ring { AreLogs logs }
        requires faulty { AreFirstFaultyEvents logs faulty_events.items }
        requires order { IsSearched logs order }
        ensures { (texts : List (List ℕ)) → AreLogTexts texts logs → IfOk result (IsJudged texts) }
    {
        match first_reason(order, &faulty_events)? {
            None => {
                let alloc = faulty_events.allocator().clone()?;
                Ok(Judged::Good(GoodLogs { alloc, logs }))
            }
            Some(reason) => Ok(Judged::Refused(RefusedLogs {
                logs,
                reason,
                faulty_events,
            })),
        }
    }

    /// The answer of the texts: the first reason against them, or yes. It says of them what `audit_logs` says.
    pub fn answer(&self) -> Answer
        ensures answer { (texts : List (List ℕ)) (a : Answer) → IsJudged texts self.now
            → (result ≡ a) ↔ IsRingAnswer texts a }
        ensures reportable { (texts : List (List ℕ)) → IsJudged texts self.now → IsReportable result }
        ensures runs { (texts : List (List ℕ)) → IsJudged texts self.now → result ≡ Answer.Yes
            → AreTextsOfRuns texts }
        ensures no_run { (texts : List (List ℕ)) (r : Reason) → IsJudged texts self.now → IsOfRing r
            → result ≡ Answer.No r → AreTextsWithoutRun texts }
    {
        match self {
            Judged::Good(_) => Answer::Yes,
            Judged::Refused(refused) => Answer::No(refused.reason()),
            Judged::NoRing(reason) => Answer::No(*reason),
        }
    }

    /// The question of the text, if the logs are good and it is asked of their ring; else the first reason against the
    /// texts or it.
    pub fn ask(&self, question: &[u8]) -> Result<AskedQuestion<'_, A>, Refusal>
        ensures { (texts : List (List ℕ)) → IsJudged texts self.now
            → MatchRefusal result (λ asked. QuestionFitsLogs texts question.now asked.logs asked.question)
            (IsFindingsReason texts question.now) }
    {
        match self {
            Judged::Good(logs) => logs.ask(question),
            Judged::Refused(refused) => Err(Refusal::No(refused.reason())),
            Judged::NoRing(reason) => Err(Refusal::No(*reason)),
        }
    }

    /// What is found for each case of a question, or the first reason against the texts or it. It says of them what
    /// `decide_all` says.
    pub fn decide(&self, question: &[u8]) -> Result<Findings<A>, OutOfMemory>
        ensures refused { (texts : List (List ℕ)) (r : Reason) → IsJudged texts self.now
            → UnlessErr result (record {})
            ((result ≡ Ok (Findings.Refused r)) ↔ WhyNoQuestion texts question.now r) }
        ensures found { (texts : List (List ℕ)) → IsJudged texts self.now
            → IfOk result (AreFindings texts question.now) }
        ensures reportable { (texts : List (List ℕ)) → IsJudged texts self.now → IfOk result AreReportable }
    {
        match self.ask(question) {
            Ok(asked) => asked.decide(),
            Err(Refusal::No(reason)) => Ok(Findings::Refused(reason)),
            Err(Refusal::OutOfMemory) => Err(OutOfMemory),
        }
    }

    /// The answer of the texts, of a question and of a certificate: the first reason against them, or yes. It says of
    /// them what `audit` says, and may wait as that does.
    pub fn check<R, G>(
        &self,
        rt: &R,
        question: &[u8],
        certificate: &[u8],
        depth: u8,
        gate: &G,
    ) -> Result<Answer, OutOfMemory>
    where
        R: Threads + Wait + Clock + Sync,
        G: Gate + Sync,
        A: Send + Sync,
        requires { depth ≤ 4 }
        ensures answer { (texts : List (List ℕ)) (a : Answer) → IsJudged texts self.now
            → UnlessErr result (record {})
            ((result ≡ Ok a) ↔ IsCheckAnswer texts question.now certificate.now a) }
        ensures reportable { (texts : List (List ℕ)) → IsJudged texts self.now → IfOk result IsReportable }
        ensures yes { (texts : List (List ℕ)) → IsJudged texts self.now → result ≡ Ok Answer.Yes
            → NoCaseIsMet texts question.now certificate.now }
    {
        answer_of(self.certify(rt, question, certificate, depth, gate))
    }

    /// Whether the certificate answers the question, and there is no reason against the texts.
    fn certify<R, G>(
        &self,
        rt: &R,
        question: &[u8],
        certificate: &[u8],
        depth: u8,
        gate: &G,
    ) -> Result<(), Refusal>
    where
        R: Threads + Wait + Clock + Sync,
        G: Gate + Sync,
        A: Send + Sync,
        requires { depth ≤ 4 }
        ensures { (texts : List (List ℕ)) → IsJudged texts self.now
            → IfOk (answered result) (λ a. IsCheckAnswer texts question.now certificate.now a × IsReportable a) }
    {
        let asked = self.ask(question)?;
        let certificate = asked.read_certificate(certificate)?;
        asked.check(rt, &certificate, depth, gate)
    }
}
