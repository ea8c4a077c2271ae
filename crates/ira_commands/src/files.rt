ghost use Rattle.std.specs.Prelude.{◌≡◌, MatchOption};
ghost use Rattle.ira_commands.specs.Reply.{AreNoLogs, IsNoText, made};
ghost use Rattle.ira_commands.specs.Reply.MadeFiles.{logs_of, one_text};

use ira_event::{Logs, MemorySink};
use ira_ring::Run;
use ira_view_page::PageText;
use std::alloc::Allocator;

/// The files that a command makes.
#[derive(Drop)]
pub enum Files<A: Allocator> {
    Nothing,
    /// One, with this text.
    Text(MemorySink<A>),
    /// The same with this page.
    Page(PageText<A>),
    /// The logs of a ring, each in a file of its own, in the order of the ring's places.
    Logs(Logs<A>),
    /// The same with those of a run.
    Run(Run<A>),
}

impl<A: Allocator> Files<A> {
    /// The logs, if they are those of a ring.
    pub fn logs(&self) -> Option<&Logs<A>>
        ensures { MatchOption result (AreNoLogs (made self.now)) (λ logs. made self.now ≡ logs_of logs.now) }
    {
        match self {
            Files::Nothing | Files::Text(_) | Files::Page(_) => None,
            Files::Logs(logs) => Some(logs),
            Files::Run(run) => Some(run.logs()),
        }
    }

    /// The text, if it is one file alone.
    pub fn text(&self) -> Option<&[u8]>
        ensures { MatchOption result (IsNoText (made self.now)) (λ text. made self.now ≡ one_text text.now) }
    {
        match self {
            Files::Text(text) => Some(text.bytes()),
            Files::Page(page) => Some(page.bytes()),
            Files::Nothing | Files::Logs(_) | Files::Run(_) => None,
        }
    }
}
