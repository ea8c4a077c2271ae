ghost use Rattle.std.specs.Prelude.{◌≡◌};
ghost use Rattle.ira_main.specs.FilesRead.{Gives};
ghost use Rattle.ira_main.specs.Moment.{IsMomentOf, question_of};
ghost use Rattle.ira_main.specs.Show.{AreLeadersOf, AreLinesOf, AsksToShow, IsUnshown, ShowsFiles};

use crate::answer_files::answer_files;
use crate::file_fault::Answered;
use crate::given::Inputs;
use crate::leaders_file::leaders_in;
use ira_commands::{LinesForm, LogsCommand, RingForm, RingLeaders, RingMoment};
use ira_event::OutOfMemory;
use ira_main_cli::{AskedLeaders, AskedMoment, QuestionSource, ShowRequest};
use ira_main_files::TextSource;
use ira_view::Form;
use std::alloc::Allocator;
use std::thread::Threads;

/// The moment that words ask for.
pub(crate) fn moment_of<'t>(asked: &'t AskedMoment<'_>) -> RingMoment<'t>
    ensures { IsMomentOf asked.now result }
{
    match asked {
        AskedMoment::AtEnd => RingMoment::AtEnd,
        AskedMoment::AtCut(events) => RingMoment::AtCut(events.as_slice()),
        AskedMoment::OfQuestion(asked) => RingMoment::OfQuestion(asked.case),
    }
}

/// The question whose first moment is asked for, if one is.
pub(crate) fn question_of<'a>(asked: &AskedMoment<'a>) -> Option<QuestionSource<'a>>
    ensures { result ≡ question_of asked.now }
{
    match asked {
        AskedMoment::OfQuestion(asked) => Some(asked.question),
        AskedMoment::AtEnd | AskedMoment::AtCut(_) => None,
    }
}

/// Who is to lead by the words, if that is asked; these places are those of the file that is named, if one is.
pub(crate) fn leaders_of<'t>(
    asked: &'t Option<AskedLeaders<'_>>,
    read: &'t [u64],
) -> RingLeaders<'t>
    ensures { AreLeadersOf asked.now read.now result }
{
    match asked {
        None => RingLeaders::NotAsked,
        Some(AskedLeaders::Any) => RingLeaders::Any,
        Some(AskedLeaders::Places(places)) => RingLeaders::Places(places.as_slice()),
        Some(AskedLeaders::File(_)) => RingLeaders::Places(read),
    }
}

/// The lines that words ask for.
fn lines_of<'t>(show: &'t ShowRequest<'_>, read: &'t [u64]) -> LinesForm<'t>
    ensures { AreLinesOf show.now read.now result }
{
    LinesForm {
        form: Form::of_json(show.is_json),
        has_events: show.has_events,
        leaders: leaders_of(&show.leads, read),
    }
}

/// What is asked of the logs of a ring that words ask to show; these places are those of the file of leaders.
fn show_command<'t>(show: &'t ShowRequest<'_>, read: &'t [u64]) -> LogsCommand<'t>
    ensures { AsksToShow show.now read.now result }
{
    LogsCommand::Show(
        RingForm::Lines(lines_of(show, read)),
        moment_of(&show.moment),
    )
}

/// Shows logs, with those who are to lead, in the files that are named.
pub(crate) fn show_files<R, A, F>(
    rt: &R,
    alloc: A,
    show: &ShowRequest<'_>,
    shelf: &F,
) -> Result<Answered<A>, OutOfMemory>
where
    R: Threads + Sync,
    A: Allocator + Clone + Send + Sync,
    F: TextSource + Sync,
    ensures { Gives result (ShowsFiles A F.reads show.now shelf.now) (IsUnshown F.reads show.now shelf.now) }
{
    let read = match leaders_in(&alloc, &show.leads, &show.logs, shelf)? {
        Ok(places) => places,
        Err(fault) => return Ok(Err(fault)),
    };
    let inputs = Inputs::asking(question_of(&show.moment), &show.logs, None);
    answer_files(rt, alloc, show_command(show, &read), inputs, shelf)
}
