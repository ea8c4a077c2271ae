ghost use Rattle.std.specs.Prelude.{◌≡◌, ◌<◌, Some, length, slice_get};
ghost use Rattle.ira_audit.specs.GoodLogs.{AreGood};
ghost use Rattle.ira_view_page.specs.Page.{Added};
ghost use Rattle.ira_view_explain_question.specs.ChosenCases.{more_cases_text, no_case_text, rest_text};
ghost use Rattle.ira_view_explain_question.specs.EliminationLines.{name_of};
ghost use Rattle.ira_view_explain_question.specs.FrontLeft.{IsStateAfter};

use crate::asked_files::AskedFiles;
use crate::asked_lines::first_line;
use crate::chosen_cases::MOST_CASES;
use crate::explained_case::ExplainedCase;
use ira_audit::AskedQuestion;
use ira_event::Logs;
use ira_node::NodeState;
use ira_view_evidence::state_after;
use ira_view_page::{Emphasis, NamedText, Page, file_of};
use std::alloc::Allocator;

/// A question about the logs of a ring, and the files of both.
#[derive(Drop)]
pub(crate) struct AskedRing<'a, A: Allocator> {
    pub(crate) alloc: &'a A,
    pub(crate) files: AskedFiles<'a>,
    pub(crate) asked: &'a AskedQuestion<'a, A>,
}

impl<'a, A: Allocator + Clone> AskedRing<'a, A> {
    /// The logs.
    pub(crate) fn logs(&self) -> &Logs<A>
        ensures value { result.now ≡ self.now.asked.now.logs }
        ensures good { AreGood result.now }
    {
        self.asked.logs()
    }

    /// The name of the file of a node's log.
    pub(crate) fn file_of(&self, place: u8) -> &'a str
        ensures { result.now ≡ name_of (slice_get self.now.files.logs.now place) }
    {
        file_of(self.files.logs, place)
    }

    /// The case of a number.
    pub(crate) fn case(&'a self, number: usize) -> ExplainedCase<'a, A>
        requires { number < length self.now.asked.now.question.cases }
        ensures asked { result.ring.now.asked.now ≡ self.now.asked.now }
        ensures files { result.ring.now.files ≡ self.now.files }
        ensures number { result.number ≡ number }
        ensures case { slice_get self.now.asked.now.question.cases number ≡ Some result.case.now }
    {
        let (file, cases) = (self.files.question, self.asked.cases());
        let first = first_line(cases, number);
        ExplainedCase {
            ring: self,
            case: &cases[number],
            number,
            first,
            lines: NamedText {
                name: file.name,
                text: file.from_line(first),
            },
        }
    }

    /// The state of a node after so many of its events.
    pub(crate) fn state_after(&self, node: u8, events: u32) -> NodeState
        requires { (s : NodeState) × IsStateAfter self.now.asked.now.logs node events s }
        ensures { IsStateAfter self.now.asked.now.logs node events result }
    {
        match state_after(self.logs().log(node), events) {
            Some(state) => state,
            None => unreachable!(),
        }
    }

    /// Adds what follows the explained cases: that none has the number that was named, or how many more there are.
    pub(crate) fn print_rest(&self, page: &mut Page<A>, named: Option<u64>, chosen: usize)
        ensures { Added page.old (rest_text named chosen (length self.now.asked.now.question.cases)) page.new }
    {
        match named {
            Some(number) => self.print_no_case(page, number, chosen),
            None => print_more_cases(page, chosen.saturating_sub(MOST_CASES)),
        }
    }

    /// Adds that there is no case of the number, where none was chosen.
    fn print_no_case(&self, page: &mut Page<A>, number: u64, chosen: usize)
        ensures { Added page.old (no_case_text number chosen (length self.now.asked.now.question.cases)) page.new }
    {
        if chosen > 0 {
            return;
        }
        page.blank();
        page.begin(Emphasis::Plain);
        page.words("There is no case ");
        page.number(number);
        page.words(": the question has ");
        page.number_of(self.asked.cases().len(), "case");
        page.words(", counted from 0.");
        page.end();
    }
}

/// Adds how many chosen cases there are besides, where there are any.
fn print_more_cases<P: Allocator>(page: &mut Page<P>, count: usize)
    ensures { Added page.old (more_cases_text count) page.new }
{
    if count == 0 {
        return;
    }
    page.blank();
    page.begin(Emphasis::Plain);
    page.words("and ");
    page.number_of(count, "case");
    page.words(" more: name one by --case C");
    page.end();
}
