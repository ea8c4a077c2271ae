ghost use Rattle.std.specs.Prelude.{◌≡◌, false};
ghost use Rattle.ira_main.specs.Serve.{AnswersLogs};

use crate::delivery::deliver;
use crate::judge_each::judge_each;
use crate::judge_files::{AskedLogs, judge_logs};
use crate::program_fault::ProgramFault;
use crate::source_names::several_folders;
use ira_event::Sink;
use ira_main_cli::LogSource;
use ira_main_files::Shelf;
use ira_view::Status;
use std::alloc::Allocator;
use std::thread::Threads;

/// Judges logs, of whose election this is expected, and says why the answer is as it is, where that is asked; where several
/// folders stand in place of files, of each of them.
pub(crate) fn answer_logs<'a, R, A, F, W>(
    rt: &R,
    alloc: A,
    asked: AskedLogs<'_, '_>,
    logs: &LogSource<'_>,
    shelf: &F,
    out: &mut W,
) -> Result<Status, ProgramFault<'a, A>>
where
    R: Threads + Sync,
    A: Allocator + Clone + Send + Sync,
    F: Shelf + Sync,
    W: Sink,
    requires { asked.is_summed ≡ false }
    ensures { AnswersLogs A F.reads asked.entry.detail asked.entry.form asked.entry.expected.now logs.now shelf.now
        (W.state out.old) (W.state out.new) result }
{
    if let Some(folders) = several_folders(logs, shelf) {
        return judge_each(rt, alloc, asked, folders, shelf, out);
    }
    deliver(judge_logs(rt, alloc, asked, logs, shelf), out)
}
