ghost use Rattle.std.specs.Prelude.{IfOk, option_map, string_bytes};
ghost use Rattle.ira_audit.specs.Report.{IsReportable};
ghost use Rattle.ira_view_json.specs.FolderValue.{folder_answer_value, sum_value, unread_value, with_folder};
ghost use Rattle.ira_view_json.specs.Line.{IsLineOf};
ghost use Rattle.ira_view_json.specs.Object.{Puts};

use crate::answer_values::answered;
use crate::object::Object;
use crate::run_features::RunFeatures;
use ira_audit::Answer;
use ira_event::OutOfMemory;
use std::alloc::Allocator;

impl<A: Allocator + Clone> Object<A> {
    /// Puts the folder, where one is given.
    fn folder(&mut self, folder: Option<&str>)
        ensures { Puts (with_folder (option_map (λ folder. folder.now) folder.entry)) self.old self.new }
    {
        if let Some(folder) = folder {
            self.text("dir", folder);
        }
    }
}

/// The line of the answer of the logs in this folder, with the status that goes with it. The answer must not say that
/// memory ran out.
pub fn folder_answer_line<A: Allocator + Clone>(
    alloc: A,
    folder: &str,
    answer: &Answer,
    status: u8,
) -> Result<String<A>, OutOfMemory>
    requires { IsReportable answer.now }
    ensures { IfOk result (λ text. IsLineOf (folder_answer_value folder.now status answer.now) (string_bytes text)) }
{
    let mut object = answered(alloc, answer, status);
    object.text("dir", folder);
    object.into_line()
}

/// The line of a file that can't be read, with the status that goes with it, and its folder where one is given.
pub fn unread_line<A: Allocator + Clone>(
    alloc: A,
    folder: Option<&str>,
    file: &str,
    status: u8,
) -> Result<String<A>, OutOfMemory>
    ensures { IfOk result (λ text. IsLineOf
        (unread_value (option_map (λ folder. folder.now) folder.entry) file.now status) (string_bytes text)) }
{
    let mut object = Object::of(alloc, "fault");
    object.words("fault", "cannot read");
    object.text("file", file);
    object.number("status", status as u64);
    object.number("version", 1);
    object.folder(folder);
    object.into_line()
}

/// The line on how many of these runs had what.
pub fn sum_line<A: Allocator + Clone>(
    alloc: A,
    runs: &[RunFeatures],
) -> Result<String<A>, OutOfMemory>
    ensures { IfOk result (λ text. IsLineOf (sum_value runs.now) (string_bytes text)) }
{
    let mut sum = Object::of(alloc, "sum");
    sum.number("runs", runs.len() as u64);
    sum.number("tie", runs.iter().filter(|run| run.tie).count() as u64);
    let second_round = runs.iter().filter(|run| run.second_round).count();
    sum.number("second_round", second_round as u64);
    let second_term = runs.iter().filter(|run| run.second_term).count();
    sum.number("second_term", second_term as u64);
    let wake_up = runs.iter().filter(|run| run.wake_up).count();
    sum.number("wake_up", wake_up as u64);
    let dropped = runs.iter().filter(|run| run.dropped).count();
    sum.number("dropped", dropped as u64);
    sum.into_line()
}
