ghost use Rattle.std.specs.Prelude.{◌≡◌, IfOk, List, ℕ};
ghost use Rattle.ira_audit.specs.Judged.{IsJudged};
ghost use Rattle.ira_audit.specs.Report.{IsReportable};
ghost use Rattle.ira_event.specs.Sink.{Wrote};
ghost use Rattle.ira_main.specs.JudgedFolder.{IsJudgedOf, judged_line, judged_status};

use ira_audit::{Answer, Judged, write_report};
use ira_commands::{Expected, Unmet};
use ira_event::{OutOfMemory, Sink, WriteFault, write_bytes};
use ira_view::{Status, features_of_run};
use ira_view_json::RunFeatures;
use std::alloc::Allocator;

/// What the logs in a folder are judged to be.
#[derive(Clone, Copy)]
pub(crate) struct JudgedFolder {
    /// Their answer.
    pub(crate) answer: Answer,
    /// What isn't as expected of their election, after a yes.
    unmet: Option<Unmet>,
    /// What their run had, where that is asked, after a yes.
    pub(crate) features: Option<RunFeatures>,
}

impl JudgedFolder {
    /// The status that goes with it.
    pub(crate) fn status(&self) -> Status
        ensures { result ≡ judged_status self.now }
    {
        match self.unmet {
            None => Status::of_answer(&self.answer),
            Some(_) => Status::No,
        }
    }

    /// Writes its line.
    pub(crate) fn write<W: Sink>(&self, sink: &mut W) -> Result<(), WriteFault>
        requires { IsReportable self.now.answer }
        ensures { Wrote result (judged_line self.now) (W.state sink.old) (W.state sink.new) }
    {
        match self.unmet {
            None => write_report(&self.answer, sink),
            Some(Unmet::NotOver) => write_bytes(b"yes, not over\n", sink),
            Some(Unmet::NoLeader) => write_bytes(b"yes, no leader\n", sink),
            Some(Unmet::OtherLeaders) => write_bytes(b"yes, other leaders\n", sink),
        }
    }
}

/// What the logs of a ring are judged to be, of whose election this is expected, and of whose run it is asked what it had.
pub(crate) fn judge_as_expected<A: Allocator + Clone>(
    alloc: A,
    expected: Expected<'_>,
    is_summed: bool,
    judged: &Judged<A>,
) -> Result<JudgedFolder, OutOfMemory>
    requires { (texts : List (List ℕ)) × IsJudged texts judged.now }
    ensures { (texts : List (List ℕ)) → IsJudged texts judged.now → IfOk result (IsJudgedOf expected.entry is_summed texts) }
{
    let reason = match judged {
        Judged::Good(logs) => {
            let unmet = expected.unmet(alloc.clone()?, logs)?;
            let features = features_of_run(alloc, is_summed, logs)?;
            let answer = Answer::Yes;
            return Ok(JudgedFolder {
                answer,
                unmet,
                features,
            });
        }
        Judged::Refused(refused) => refused.reason(),
        Judged::NoRing(reason) => *reason,
    };
    Ok(JudgedFolder {
        answer: Answer::No(reason),
        unmet: None,
        features: None,
    })
}
