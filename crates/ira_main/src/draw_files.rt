ghost use Rattle.std.specs.Prelude.{MatchOption};
ghost use Rattle.ira_main.specs.Draw.{AsksToDraw, DrawsFiles, HasOtherEnding, IsDrawnForm, IsUndrawn};
ghost use Rattle.ira_main.specs.FilesRead.{Gives};

use crate::answer_files::answer_files;
use crate::file_fault::{Answered, FileFault};
use crate::given::Inputs;
use crate::show_command::{moment_of, question_of};
use ira_commands::{LogsCommand, RingForm};
use ira_event::OutOfMemory;
use ira_main_cli::DrawRequest;
use ira_main_files::{FileName, TextSource};
use ira_view_picture::ColumnRange;
use std::alloc::Allocator;
use std::path::Path;
use std::thread::Threads;

/// The form of what is drawn into a file of this name, by its ending; none where that is neither `.svg` nor `.html`.
fn form_of(name: &str, columns: ColumnRange) -> Option<RingForm<'static>>
    ensures { MatchOption result (HasOtherEnding name.now) (IsDrawnForm name.now columns) }
{
    match Path::new(name).extension() {
        Some(ending) if ending.eq_ignore_ascii_case("html") => Some(RingForm::Html(columns)),
        Some(ending) if !ending.eq_ignore_ascii_case("svg") => None,
        _ => Some(RingForm::Picture(columns)),
    }
}

/// What is asked of the logs of a ring that words ask to draw; nothing where the file has another ending.
fn draw_command<'t>(draw: &'t DrawRequest<'_>) -> Option<LogsCommand<'t>>
    ensures { MatchOption result (HasOtherEnding draw.now.picture.now) (AsksToDraw draw.now) }
{
    let columns = ColumnRange {
        from: draw.from,
        to: draw.to,
    };
    let form = form_of(draw.picture, columns)?;
    Some(LogsCommand::Show(form, moment_of(&draw.moment)))
}

/// Draws the logs of a source: a picture, or a page to move in one.
pub(crate) fn draw_files<R, A, F>(
    rt: &R,
    alloc: A,
    draw: &DrawRequest<'_>,
    shelf: &F,
) -> Result<Answered<A>, OutOfMemory>
where
    R: Threads + Sync,
    A: Allocator + Clone + Send + Sync,
    F: TextSource + Sync,
    ensures { Gives result (DrawsFiles A F.reads draw.now shelf.now) (IsUndrawn F.reads draw.now shelf.now) }
{
    let Some(command) = draw_command(draw) else {
        return Ok(Err(FileFault::OtherEnding(FileName::given(alloc, draw.picture)?)));
    };
    let question = question_of(&draw.moment);
    let inputs = Inputs::asking(question, &draw.logs, Some(draw.picture));
    answer_files(rt, alloc, command, inputs, shelf)
}
