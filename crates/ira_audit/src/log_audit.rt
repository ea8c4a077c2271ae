ghost use Rattle.std.specs.Prelude.{◌≡◌, ◌↔◌, ◌++◌, ◌+◌, ◌≤◌, ◌<◌, ℕ, List, [], drop, length, take, IfOk, OnErr, MatchResult};
ghost use Rattle.ira_event.specs.Log.{Log};
ghost use Rattle.ira_event.specs.LogText.{IsLogText};
ghost use Rattle.ira_event.specs.LogTextFault.{LogTextFault};
ghost use Rattle.ira_audit.specs.LogTextAnswer.{IsLogTextAnswer};
ghost use Rattle.ira_audit.specs.LogAudit.{HasTakenBytes, HasNoMore, IsBegun, IsSuffix};
ghost use Rattle.ira_audit.specs.Replaying.{IsLogAnswer};
ghost use Rattle.ira_audit.specs.Report.{IsReportable};
ghost use Rattle.ira_audit.specs.declared.answer.Answer.{Answer};

use crate::answer::Answer;
use crate::partial_replay::PartialReplay;
use crate::reason::Reason;
use ira_event::{LogFault, MAX_TEXT, Records, open_log};
use std::marker::Model;

/// Judges the text of one log alone, which it takes piece by piece. Each event has its step as it is read, and none is
/// kept, so it takes no memory.
#[derive(Drop)]
pub struct LogAudit {
    /// How many bytes were taken.
    taken: usize,
    /// What they came to; none are taken before the whole head.
    replay: Option<PartialReplay>,
}

impl Model for LogAudit {
    ghost use Rattle.std.specs.Prelude.{◌≤◌, IfSome};
    ghost use Rattle.ira_event.specs.Limits.{MAX_RECORDS, MAX_TEXT};
    ghost use Rattle.ira_audit.specs.LogAudit.{LogAudit};

    ghost Value = { LogAudit };

    ghost view = { λ a. record { taken = a.taken; replay = a.replay } };

    ghost invariant = { λ a. (a.taken ≤ MAX_TEXT) × IfSome a.replay (λ r. r.count ≤ MAX_RECORDS) };
}

impl LogAudit {
    /// An audit that has taken no byte.
    pub fn new() -> LogAudit
        ensures { HasTakenBytes result [] }
    {
        LogAudit {
            taken: 0,
            replay: None,
        }
    }

    /// How many bytes were taken.
    pub fn taken(&self) -> usize
        ensures value { result ≡ self.now.taken }
        ensures few { result ≤ MAX_TEXT }
    {
        self.taken
    }

    /// Takes what a piece begins with: the head, unless it was taken before, and whole records; and gives how many bytes
    /// these are. It takes none where the piece makes the text too long. What it left stands at the front of the next
    /// piece, or of what `finish` is given: a piece of the head or of a line, or an end line or a fault with all that is
    /// after it.
    pub fn feed(&mut self, piece: &[u8]) -> usize
        ensures within { result ≤ length piece.now }
        ensures count { self.new.taken ≡ self.old.taken + result }
        ensures taken { (text : List ℕ) → HasTakenBytes self.old text
            → HasTakenBytes self.new (text ++ take result piece.now) }
        ensures all { self.old.taken + length piece.now ≤ MAX_TEXT
            → HasNoMore self.new.replay (drop result piece.now) }
        ensures too_long { MAX_TEXT < self.old.taken + length piece.now → result ≡ 0 }
    {
        let Ok((replay, records)) = self.open(piece) else {
            return 0;
        };
        let (replay, left, _) = replay.read_on(records);
        let taken = piece.len() - left.unread();
        self.taken += taken;
        self.replay = Some(replay);
        taken
    }

    /// The answer of the text, which goes on like this to its end after what was taken.
    pub fn finish(self, rest: &[u8]) -> Answer
        ensures answer { (text : List ℕ) (a : Answer) → HasTakenBytes self text
            → (result ≡ a) ↔ IsLogTextAnswer (text ++ rest.now) a }
        ensures reportable { (text : List ℕ) → HasTakenBytes self text → IsReportable result }
    {
        match self.judge(rest) {
            Ok(answer) => answer,
            Err(fault) => Answer::No(Reason::Log { number: 0, fault }),
        }
    }

    /// The answer of the text's log, or the text's fault.
    fn judge(&self, rest: &[u8]) -> Result<Answer, LogFault>
        ensures { (text : List ℕ) → HasTakenBytes self.now text → MatchResult result
            (λ a. (log : Log) × IsLogText (text ++ rest.now) log × IsLogAnswer log a)
            (λ f. LogTextFault (text ++ rest.now) f) }
    {
        let (replay, records) = self.open(rest)?;
        let (replay, _, end) = replay.read_on(records);
        end?;
        Ok(replay.answer())
    }

    /// What the bytes that were taken came to, and the records that the text goes on with; or the text's fault, where it is
    /// too long or has no head.
    fn open<'a>(&self, rest: &'a [u8]) -> Result<(PartialReplay, Records<'a>), LogFault>
        ensures count { IfOk result (λ p. p.1.count ≡ p.0.count) }
        ensures version { IfOk result (λ p. p.1.version ≡ p.0.head.version) }
        ensures short { IfOk result (λ _. self.now.taken + length rest.now ≤ MAX_TEXT) }
        ensures suffix { IfOk result (λ p. IsSuffix p.1.rest rest.now) }
        ensures begun { (text : List ℕ) → HasTakenBytes self.now text → MatchResult result
            (λ p. IsBegun (text ++ rest.now) p.0 p.1) (λ f. LogTextFault (text ++ rest.now) f) }
        ensures err { OnErr result (self.now.taken + length rest.now ≤ MAX_TEXT
            → HasNoMore self.now.replay rest.now) }
    {
        if rest.len() > MAX_TEXT - self.taken {
            return Err(LogFault::TooLong);
        }
        let Some(replay) = self.replay else {
            let (head, records) = open_log(rest)?;
            return Ok((PartialReplay::first(head), records));
        };
        Ok(replay.with(rest))
    }
}
