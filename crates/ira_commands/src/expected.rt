ghost use Rattle.std.specs.Prelude.{◌≡◌, ◌++◌, [], IfOk, List, MatchBool, MatchOption, option_map, ℕ};
ghost use Rattle.ira_audit.specs.Judged.{IsJudged};
ghost use Rattle.ira_commands.specs.Expected.{AreLinesOver, IsExpectedText, IsMet, IsUnmet, JudgesExpected, LeadOthers};
ghost use Rattle.ira_commands.specs.Expected.{TellsExpected, others_than};
ghost use Rattle.ira_commands.specs.RingLeaders.{AreDifferencesOf, named_places};

use crate::command_fault::CommandFault;
use crate::reply::Reply;
use crate::ring_leaders::RingLeaders;
use ira_audit::{Answer, GoodLogs, Judged};
use ira_event::{MemorySink, OutOfMemory, WriteFault, write_bytes};
use ira_view::{Form, Status, unfinished_election, write_view};
use ira_view_json::{ShownAnswer, yes_line};
use ira_view_moment::ChosenMoment;
use ira_view_page::{Page, PageText};
use std::alloc::Allocator;

/// What is expected of an election when the logs of its ring end.
#[derive(Clone, Copy)]
pub struct Expected<'v> {
    /// Whether it is to be over.
    pub is_over: bool,
    /// Who is to lead.
    pub leaders: RingLeaders<'v>,
}

/// What isn't as expected.
#[derive(Clone, Copy)]
pub enum Unmet {
    /// The election isn't over.
    NotOver,
    /// No node leads.
    NoLeader,
    /// Others lead than those who are to.
    OtherLeaders,
}

/// What isn't as expected where others lead.
fn others_than(leaders: &RingLeaders<'_>) -> Unmet
    ensures { result ≡ others_than leaders.now }
{
    match leaders {
        RingLeaders::Any => Unmet::NoLeader,
        RingLeaders::NotAsked | RingLeaders::Places(_) => Unmet::OtherLeaders,
    }
}

impl<'v> Expected<'v> {
    /// Lines on an election that is to be over and isn't.
    fn lines_over<A: Allocator + Clone>(
        &self,
        alloc: A,
        logs: &GoodLogs<A>,
    ) -> Result<PageText<A>, OutOfMemory>
        ensures { IfOk result (AreLinesOver logs.now self.now.is_over) }
    {
        if self.is_over {
            unfinished_election(alloc, logs)
        } else {
            Page::new(alloc).finish()
        }
    }

    /// The same lines, and after them these on who leads.
    pub(crate) fn lines<A: Allocator + Clone>(
        &self,
        alloc: A,
        logs: &GoodLogs<A>,
        differences: &PageText<A>,
    ) -> Result<PageText<A>, OutOfMemory>
        ensures { IfOk result (λ lines. (over : List ℕ) × AreLinesOver logs.now self.now.is_over over
            × (lines ≡ over ++ differences.now)) }
    {
        let over = self.lines_over(alloc.clone()?, logs)?;
        let mut lines = Page::new(alloc);
        lines.words(over.as_str());
        lines.words(differences.as_str());
        lines.finish()
    }

    /// Whether others lead than those who are to, or one of these is none of the ring.
    fn lead_others<A: Allocator + Clone>(
        &self,
        alloc: A,
        logs: &GoodLogs<A>,
    ) -> Result<bool, OutOfMemory>
        ensures { IfOk result (λ others. MatchBool others (LeadOthers logs.now self.now.leaders)
            (AreDifferencesOf logs.now self.now.leaders [])) }
    {
        match self.leaders.differences(alloc, logs)? {
            Some(lines) => Ok(!lines.bytes().is_empty()),
            None => Ok(true),
        }
    }

    /// What isn't so when the logs end, first of all that the election isn't over; nothing where all is.
    pub fn unmet<A: Allocator + Clone>(
        &self,
        alloc: A,
        logs: &GoodLogs<A>,
    ) -> Result<Option<Unmet>, OutOfMemory>
        ensures { IfOk result (λ unmet. MatchOption unmet (IsMet logs.now self.now) (IsUnmet logs.now self.now)) }
    {
        if !self.lines_over(alloc.clone()?, logs)?.bytes().is_empty() {
            return Ok(Some(Unmet::NotOver));
        }
        if self.lead_others(alloc, logs)? {
            Ok(Some(others_than(&self.leaders)))
        } else {
            Ok(None)
        }
    }

    /// The places of the nodes that are to lead, if some are named.
    fn named(&self) -> Option<&'v [u64]>
        ensures { option_map (λ named. named.now) result ≡ named_places self.now.leaders }
    {
        match self.leaders {
            RingLeaders::Places(places) => Some(places),
            RingLeaders::NotAsked | RingLeaders::Any => None,
        }
    }
}

/// The text of a yes, after which these lines say what isn't as expected.
fn expected_text<A: Allocator + Clone>(
    alloc: A,
    form: Form,
    expected: Expected<'_>,
    logs: &GoodLogs<A>,
    lines: &PageText<A>,
    status: Status,
) -> Result<MemorySink<A>, OutOfMemory>
    ensures { IfOk result (λ text.
        IsExpectedText form (named_places expected.entry.leaders) logs.now lines.now status text.bytes) }
{
    let mut text = MemorySink::new(alloc.clone()?);
    let written = match form {
        Form::Json => {
            let answer = ShownAnswer {
                status: status.number(),
                named: expected.named(),
            };
            let line = yes_line(alloc, logs.logs(), &ChosenMoment::AtEnd, answer)?;
            write_bytes(line.as_bytes(), &mut text)
        }
        Form::Words => write_view(&Answer::Yes, lines.bytes(), &mut text),
    };
    match written {
        Ok(()) => Ok(text),
        Err(WriteFault) => Err(OutOfMemory),
    }
}

/// A yes, and what isn't as expected when the logs end.
pub(crate) fn tell_expected<A: Allocator + Clone>(
    alloc: A,
    form: Form,
    expected: Expected<'_>,
    logs: &GoodLogs<A>,
) -> Result<Reply<A>, OutOfMemory>
    ensures { IfOk result (TellsExpected form expected.entry logs.now) }
{
    let Some(differences) = expected.leaders.differences(alloc.clone()?, logs)? else {
        return Ok(Reply::refused(alloc, CommandFault::NoPlace));
    };
    let lines = expected.lines(alloc.clone()?, logs, &differences)?;
    let status = Status::of_differences(lines.bytes());
    let text = expected_text(alloc, form, expected, logs, &lines, status)?;
    Ok(Reply::printed(status, text))
}

/// The answer of the logs of a ring, and after a yes whether the election is as expected.
pub(crate) fn answer_expected<A: Allocator + Clone>(
    alloc: A,
    form: Form,
    expected: Expected<'_>,
    judged: &Judged<A>,
) -> Result<Reply<A>, OutOfMemory>
    requires { (texts : List (List ℕ)) × IsJudged texts judged.now }
    ensures { (texts : List (List ℕ)) → IsJudged texts judged.now
        → IfOk result (JudgesExpected form expected.entry texts) }
{
    match judged {
        Judged::Good(logs) => tell_expected(alloc, form, expected, logs),
        Judged::Refused(refused) => {
            Reply::of_answer_as(alloc, form, &Answer::No(refused.reason()))
        }
        Judged::NoRing(reason) => Reply::of_answer_as(alloc, form, &Answer::No(*reason)),
    }
}
