ghost use Rattle.std.specs.Prelude.{◌≡◌, map};
ghost use Rattle.ira_main.specs.Unread.{TellsUnread, wants_json};

use crate::file_fault::FileFault;
use crate::program_fault::ProgramFault;
use ira_event::{Sink, write_bytes};
use ira_view::Status;
use ira_view_json::unread_line;
use std::alloc::Allocator;

/// Whether the words ask for JSON: after `--` they are names.
fn wants_json(words: &[&str]) -> bool
    ensures { result ≡ wants_json (map (λ word. word.now) words.now) }
{
    for word in words {
        if *word == "--" {
            return false;
        }
        if *word == "--json" {
            return true;
        }
    }
    false
}

/// Prints a file that can't be read as JSON, where the words ask for that. Failures of that change no outcome.
pub(crate) fn tell_unread<A: Allocator + Clone, W: Sink>(
    alloc: A,
    words: &[&str],
    outcome: &Result<Status, ProgramFault<'_, A>>,
    out: &mut W,
)
    ensures { TellsUnread (wants_json (map (λ word. word.now) words.now)) outcome.now
        (W.state out.old) (W.state out.new) }
{
    if !wants_json(words) {
        return;
    }
    if let Err(ProgramFault::File(FileFault::Unread(name))) = outcome {
        if let Ok(line) = unread_line(alloc, None, name.as_str(), Status::Refused.number()) {
            let _ = write_bytes(line.as_bytes(), out);
        }
    }
}
