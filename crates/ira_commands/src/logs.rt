ghost use Rattle.std.specs.Prelude.{List, IfOk, ℕ};
ghost use Rattle.ira_audit.specs.Judged.{IsJudged};
ghost use Rattle.ira_commands.specs.Judging.{JudgesLogs};
ghost use Rattle.ira_commands.specs.Reply.{ReportsAs};

use crate::reply::Reply;
use ira_audit::Judged;
use ira_event::OutOfMemory;
use ira_view::Form;
use std::alloc::Allocator;

/// The answer of the logs of a ring.
pub(crate) fn answer_logs<A: Allocator + Clone>(
    alloc: A,
    form: Form,
    judged: &Judged<A>,
) -> Result<Reply<A>, OutOfMemory>
    requires { (texts : List (List ℕ)) × IsJudged texts judged.now }
    ensures { (texts : List (List ℕ)) → IsJudged texts judged.now
        → IfOk result (JudgesLogs (ReportsAs form) texts) }
{
    Reply::of_answer_as(alloc, form, &judged.answer())
}
