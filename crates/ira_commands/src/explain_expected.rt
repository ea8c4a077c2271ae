ghost use Rattle.std.specs.Prelude.{◌≡◌, ◌++◌, IfOk};
ghost use Rattle.ira_audit.specs.Judged.{IsJudged};
ghost use Rattle.ira_audit.specs.declared.judged.Judged.TheVariants.{Good};
ghost use Rattle.ira_view.specs.Texts.{texts_of};
ghost use Rattle.ira_commands.specs.ExplainExpected.{ExplainsExpected, IsExpectedPage, TellsExplained};

use crate::command_fault::CommandFault;
use crate::expected::{Expected, tell_expected};
use crate::explain::explain_all;
use crate::reply::Reply;
use crate::ring_leaders::RingLeaders;
use ira_audit::{Answer, GoodLogs, Judged};
use ira_event::{MemorySink, OutOfMemory};
use ira_view::{Form, Status, explain_texts, write_view};
use ira_view_page::{NamedText, Page, PageText};
use std::alloc::Allocator;

/// The page below a yes: these lines on who leads, why that is so, and how the run stands.
fn expected_page<A: Allocator + Clone>(
    alloc: A,
    leaders: RingLeaders<'_>,
    files: &[NamedText<'_>],
    judged: &Judged<A>,
    logs: &GoodLogs<A>,
    lines: &PageText<A>,
) -> Result<PageText<A>, OutOfMemory>
    requires judged { IsJudged (texts_of files.now) judged.now }
    requires good { judged.now ≡ Good logs.now }
    ensures { IfOk result (IsExpectedPage A leaders.entry files.now logs.now lines.now) }
{
    let why = leaders.reasons(alloc.clone()?, files, logs)?;
    let ring = explain_texts(alloc.clone()?, files, judged)?;
    let mut page = Page::new(alloc);
    page.words(lines.as_str());
    page.words(why.as_str());
    page.words(ring.view.explanation.page.as_str());
    page.finish()
}

/// A yes, and why; how those who lead when the logs end differ from those who are to, and why. The status says whether all is
/// as expected.
fn tell_explained<A: Allocator + Clone>(
    alloc: A,
    expected: Expected<'_>,
    files: &[NamedText<'_>],
    judged: &Judged<A>,
    logs: &GoodLogs<A>,
) -> Result<Reply<A>, OutOfMemory>
    requires judged { IsJudged (texts_of files.now) judged.now }
    requires good { judged.now ≡ Good logs.now }
    ensures { IfOk result (TellsExplained A expected.entry files.now logs.now) }
{
    let leaders = expected.leaders;
    let Some(differences) = leaders.differences(alloc.clone()?, logs)? else {
        return Ok(Reply::refused(alloc, CommandFault::NoPlace));
    };
    let lines = expected.lines(alloc.clone()?, logs, &differences)?;
    let page = expected_page(alloc.clone()?, leaders, files, judged, logs, &differences)?;
    let mut text = MemorySink::new(alloc);
    let Ok(()) = write_view(&Answer::Yes, page.bytes(), &mut text) else {
        return Err(OutOfMemory);
    };
    Ok(Reply::printed(Status::of_differences(lines.bytes()), text))
}

/// The answer of the logs of a ring in these files, and why it is so; after a yes also whether the election is as expected,
/// which as JSON is said as without an explanation.
pub(crate) fn explain_expected<A: Allocator + Clone>(
    alloc: A,
    form: Form,
    expected: Expected<'_>,
    files: &[NamedText<'_>],
    judged: &Judged<A>,
) -> Result<Reply<A>, OutOfMemory>
    requires { IsJudged (texts_of files.now) judged.now }
    ensures { IfOk result (ExplainsExpected A form expected.entry files.now) }
{
    match judged {
        Judged::Good(logs) => match form {
            Form::Words => tell_explained(alloc, expected, files, judged, logs),
            Form::Json => tell_expected(alloc, form, expected, logs),
        },
        Judged::Refused(_) => explain_all(alloc, form, files, judged),
        Judged::NoRing(_) => explain_all(alloc, form, files, judged),
    }
}
