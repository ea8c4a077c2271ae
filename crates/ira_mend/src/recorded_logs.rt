ghost use Rattle.std.specs.Prelude.{◌≡◌, ◌++◌, ◌∷◌, [], ℕ, ◌↔◌, IfOk, IsTrue, List, MatchOption, OnOk, OnErr, map};
ghost use Rattle.std.specs.List.{All, AllZip, list_all};
ghost use Rattle.ira_audit.specs.Refusal.{MatchRefusal};
ghost use Rattle.ira_audit.specs.Report.{IsReportableReason};
ghost use Rattle.ira_event.specs.Logs.{AreLogs};
ghost use Rattle.ira_mend.specs.RecordedLogs.{AreLeftTexts, HasHeadOfLog, HasNoLog, HasRecorded, IsFirstFault, IsRecordedReason, IsShort, SaysLost};
ghost use Rattle.ira_mend.specs.RecordedLogs.{is_lost, is_short};

use crate::recorded_log::RecordedLog;
use ira_audit::{Reason, Refusal};
use ira_event::{HeadFault, LogFault, LogHead, Logs, OutOfMemory};
use std::alloc::{AllocError, Allocator};
use std::marker::Model;

/// Of which texts it is said that they begin with no head.
fn lost_of<A: Allocator>(alloc: A, recorded: &[RecordedLog<A>]) -> Result<Vec<bool, A>, AllocError>
    ensures { IfOk result (λ lost. lost.items ≡ map is_lost recorded.now) }
{
    recorded
        .iter()
        .map(|recorded| recorded.is_lost())
        .collect(alloc)
}

/// Whether each text is short.
fn are_short<A: Allocator>(recorded: &[RecordedLog<A>]) -> bool
    ensures { result ≡ list_all is_short recorded.now }
{
    recorded.iter().all(RecordedLog::is_short)
}

/// What a crash left of the logs of a ring: their texts, which are taken one by one in the order of the ring's places.
#[derive(Drop)]
pub struct RecordedLogs<A: Allocator> {
    recorded: Vec<RecordedLog<A>, A>,
}

impl<A: Allocator> Model for RecordedLogs<A> {
    ghost use Rattle.std.specs.Prelude.{List};
    ghost use Rattle.ira_mend.specs.declared.recorded_log.RecordedLog.{RecordedLog};

    ghost Value = { List (RecordedLog A) };

    ghost view = { λ r. r.recorded.items };
}

impl<A: Allocator + Clone> RecordedLogs<A> {
    /// No text was taken.
    pub fn new(alloc: A) -> RecordedLogs<A>
        ensures { HasRecorded result [] }
    {
        RecordedLogs {
            recorded: Vec::new(alloc),
        }
    }

    /// Takes the text that comes next; one without bytes where there is no file. Where memory runs out all is as it was.
    pub fn take(&mut self, text: &[u8]) -> Result<(), OutOfMemory>
        ensures ok { OnOk result
            ((texts : List (List ℕ)) → HasRecorded self.old texts
            → HasRecorded self.new (texts ++ text.now ∷ [])) }
        ensures err { OnErr result (self.new ≡ self.old) }
    {
        let alloc = self.recorded.allocator().clone()?;
        self.recorded.push(RecordedLog::of_text(alloc, text)?)?;
        Ok(())
    }

    /// The head of the first log.
    fn ring(&self) -> Option<LogHead>
        ensures { MatchOption result (HasNoLog self.now) (HasHeadOfLog self.now) }
    {
        for recorded in &self.recorded {
            if let RecordedLog::Log(log) = recorded {
                return Some(LogHead {
                    version: log.version(),
                    nodes: log.nodes(),
                    place: log.place(),
                    initiator: log.initiator(),
                });
            }
        }
        None
    }

    /// Whether each text is short: of none more is known than that, and nothing of the ring.
    pub fn are_short(&self) -> bool
        ensures { (texts : List (List ℕ)) → HasRecorded self.now texts → IsTrue result ↔ All IsShort texts }
    {
        are_short(&self.recorded)
    }

    /// Which texts begin with no head.
    pub fn lost(&self) -> Result<Vec<bool, A>, AllocError>
        ensures { IfOk result (λ lost. (texts : List (List ℕ)) → HasRecorded self.now texts
            → AllZip SaysLost texts lost.items) }
    {
        lost_of(self.recorded.allocator().clone()?, &self.recorded)
    }

    /// What is wrong with the first text that isn't short, where none is a log's; with the first one, where all are short.
    fn first_fault(&self) -> Reason
        requires { HasNoLog self.now }
        ensures { (texts : List (List ℕ)) → HasRecorded self.now texts → IsFirstFault texts result }
    {
        for (number, recorded) in self.recorded.iter().enumerate() {
            if let RecordedLog::Faulty(fault) = recorded {
                return Reason::Log {
                    number,
                    fault: *fault,
                };
            }
        }
        if self.recorded.is_empty() {
            return Reason::Heads(HeadFault::Number);
        }
        Reason::Log {
            number: 0,
            fault: LogFault::Head,
        }
    }

    /// The logs of which the texts are left, if they are those of one ring. A node of which not even a whole head is left
    /// gets a log without events: an initiator's if `guess` says so, but where its text is of the other start.
    pub fn gather(self, guess: bool) -> Result<Logs<A>, Refusal>
        ensures { (texts : List (List ℕ)) → HasRecorded self texts
            → MatchRefusal result (λ logs. AreLeftTexts guess texts logs × AreLogs logs)
            (λ r. IsRecordedReason guess texts r × IsReportableReason r) }
    {
        let Some(ring) = self.ring() else {
            return Err(Refusal::No(self.first_fault()));
        };
        let RecordedLogs { recorded } = self;
        let alloc = recorded.allocator().clone()?;
        let mut logs = Vec::with_capacity(alloc.clone()?, recorded.len())?;
        for it in recorded {
            let log = it.into_log(alloc.clone()?, ring, logs.len(), guess)?;
            match logs.push(log) {
                Ok(()) => {}
                Err(_) => return Err(Refusal::OutOfMemory),
            }
        }
        Ok(Logs::gather(logs)?)
    }
}
