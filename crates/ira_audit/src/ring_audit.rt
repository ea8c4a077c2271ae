ghost use Rattle.std.specs.Prelude.{◌≡◌, ◌++◌, ◌∷◌, ◌≤◌, [], ℕ, List, IfOk, IsTrue, OnOk, OnErr, Some, length, map, slice_get};
ghost use Rattle.ira_event.specs.Log.{Log};
ghost use Rattle.ira_event.specs.Logs.{AreLogs};
ghost use Rattle.ira_order.specs.FaultyEvent.{AreFirstFaultyEvents};
ghost use Rattle.ira_audit.specs.Judged.{IsJudged};
ghost use Rattle.ira_audit.specs.LogTexts.{AreLogTexts};
ghost use Rattle.ira_audit.specs.Refusal.{IsRingReason, MatchRefusal};
ghost use Rattle.ira_audit.specs.RingAudit.{HasTaken};

use crate::judged::Judged;
use crate::link_lines::LinkLines;
use crate::order_search::search_order;
use crate::reason::Reason;
use crate::refusal::Refusal;
use crate::replayed_log::{ReplayedLog, split_replayed};
use ira_event::{LogFault, Logs, OutOfMemory};
use ira_order::FaultyEvent;
use std::alloc::Allocator;
use std::marker::Model;

/// Judges the texts of a ring's logs, which it takes one by one, or from an audit that has taken those that come next,
/// in the order of the ring's places. Of a text it keeps the log and what its replay gave, so that the texts needn't all
/// be in memory at once; of the logs past the ring's size, as the first log names it, nothing but their heads.
#[derive(Drop)]
pub struct RingAudit<A: Allocator> {
    /// The logs of the texts, up to the first that is no log's.
    logs: Vec<ReplayedLog<A>, A>,
    /// What is wrong with the text after these.
    fault: Option<LogFault>,
    /// What the last log's node sent, once there is one.
    link: Option<LinkLines<A>>,
}

impl<A: Allocator> Model for RingAudit<A> {
    ghost use Rattle.ira_audit.specs.RingAudit.{RingAudit};

    ghost Value = { RingAudit };

    ghost view = { λ a. record { logs = a.logs.items; fault = a.fault } };
}

impl<A: Allocator + Clone> RingAudit<A> {
    /// An audit that has taken no text.
    pub fn new(alloc: A) -> RingAudit<A>
        ensures { HasTaken result [] }
    {
        RingAudit {
            logs: Vec::new(alloc),
            fault: None,
            link: None,
        }
    }

    /// An audit that has taken these texts.
    pub(crate) fn of_texts(alloc: A, texts: &[&[u8]]) -> Result<RingAudit<A>, OutOfMemory>
        ensures { IfOk result (λ audit. HasTaken audit (map (λ text. text.now) texts.now)) }
    {
        let mut audit = RingAudit::new(alloc);
        for text in texts {
            audit.take(text)?;
        }
        Ok(audit)
    }

    /// Takes the text that comes next. Where memory runs out the audit is as it was.
    pub fn take(&mut self, text: &[u8]) -> Result<(), OutOfMemory>
        ensures ok { OnOk result
            ((texts : List (List ℕ)) → HasTaken self.old texts → HasTaken self.new (texts ++ text.now ∷ [])) }
        ensures err { OnErr result (self.new ≡ self.old) }
    {
        if self.fault.is_some() {
            return Ok(());
        }
        let alloc = self.logs.allocator().clone()?;
        let mut link = match self.link.take() {
            Some(link) => link,
            None => LinkLines::new(alloc.clone()?),
        };
        match ReplayedLog::read(alloc, text, &mut link) {
            Ok(log) => {
                self.link = Some(link);
                let kept = if self.are_all_there() {
                    log.without_events(self.logs.allocator().clone()?)
                } else {
                    log
                };
                self.logs.push(kept)?;
            }
            Err(LogFault::OutOfMemory) => return Err(OutOfMemory),
            Err(fault) => self.fault = Some(fault),
        }
        Ok(())
    }

    /// Whether there are as many logs as the first one names nodes, so that with one more they aren't those of one ring.
    fn are_all_there(&self) -> bool
        ensures { IsTrue result
            → (first : Log) × (slice_get self.now.logs 0 ≡ Some first) × (first.nodes ≤ length self.now.logs) }
    {
        match self.logs.first() {
            Some(first) => self.logs.len() >= usize::from(first.nodes().get()),
            None => false,
        }
    }

    /// Takes the texts that another audit has taken, after its own. After a text that is no log's none counts. Where
    /// memory runs out the audit is as it was.
    pub fn append(&mut self, mut next: RingAudit<A>) -> Result<(), OutOfMemory>
        ensures ok { OnOk result
            ((before texts : List (List ℕ)) → HasTaken self.old before → HasTaken next texts
            → HasTaken self.new (before ++ texts)) }
        ensures err { OnErr result (self.new ≡ self.old) }
    {
        if self.fault.is_some() {
            return Ok(());
        }
        self.logs.append(&mut next.logs)?;
        self.fault = next.fault;
        Ok(())
    }

    /// What the texts that were taken are judged to be. It starts no thread.
    pub fn judge(self) -> Result<Judged<A>, OutOfMemory>
        ensures { (texts : List (List ℕ)) → HasTaken self texts → IfOk result (IsJudged texts) }
    {
        match self.gather_replayed() {
            Ok((logs, faulty_events)) => {
                let alloc = faulty_events.allocator().clone()?;
                let order = search_order(alloc, &logs, &faulty_events);
                Judged::new(logs, faulty_events, order)
            }
            Err(Refusal::No(reason)) => Ok(Judged::NoRing(reason)),
            Err(Refusal::OutOfMemory) => Err(OutOfMemory),
        }
    }

    /// The logs of the texts that were taken, if they are those of one ring. Whether they match and have steps isn't
    /// looked at.
    pub fn gather(self) -> Result<Logs<A>, Refusal>
        ensures { (texts : List (List ℕ)) → HasTaken self texts
            → MatchRefusal result (λ logs. AreLogTexts texts logs × AreLogs logs) (IsRingReason texts) }
    {
        let (logs, _) = self.gather_replayed()?;
        Ok(logs)
    }

    /// The logs of the texts that were taken, if they are those of one ring, and their first events without a step.
    fn gather_replayed(self) -> Result<(Logs<A>, Vec<FaultyEvent, A>), Refusal>
        ensures replayed { IfOk result (λ found. AreLogs found.0 × AreFirstFaultyEvents found.0 found.1.items) }
        ensures texts { (texts : List (List ℕ)) → HasTaken self texts
            → MatchRefusal result (λ found. AreLogTexts texts found.0) (IsRingReason texts) }
    {
        let RingAudit { logs, fault, .. } = self;
        if let Some(fault) = fault {
            let number = logs.len();
            return Err(Refusal::No(Reason::Log { number, fault }));
        }
        let (logs, faulty_events) = split_replayed(logs)?;
        Ok((Logs::gather(logs)?, faulty_events))
    }
}
