ghost use Rattle.std.specs.Prelude.{◌≡◌, IfOk, string_bytes};
ghost use Rattle.ira_view_json.specs.Line.{IsLineOf};
ghost use Rattle.ira_view_json.specs.LogValue.{log_value, start_word};

use crate::object::Object;
use ira_event::{NodeLog, OutOfMemory};
use std::alloc::Allocator;

/// How the node of a log starts.
pub(crate) fn start_of<A: Allocator>(log: &NodeLog<A>) -> &'static str
    ensures { result.now ≡ start_word log.now.initiator }
{
    if log.initiator() {
        "initiator"
    } else {
        "passive"
    }
}

/// The line of a log in the file of this name: its node, and how it starts.
pub fn log_line<A: Allocator + Clone, B: Allocator>(
    alloc: A,
    log: &NodeLog<B>,
    file: &str,
) -> Result<String<A>, OutOfMemory>
    ensures { IfOk result (λ text.
        IsLineOf (log_value file.now log.now.place log.now.initiator) (string_bytes text)) }
{
    let mut object = Object::of(alloc, "log");
    object.text("file", file);
    object.number("node", log.place() as u64);
    object.words("start", start_of(log));
    object.into_line()
}
