ghost use Rattle.std.specs.Prelude.{IfOk};
ghost use Rattle.ira_view_explain.specs.Refused.{IsRecordOf};

use ira_event::{Event, Logs, OutOfMemory};
use ira_order::EventAt;
use ira_view_page::{NamedText, RecordAt, file_of};
use std::alloc::Allocator;

/// The logs of a ring, and the files that they were read from.
#[derive(Drop)]
pub(crate) struct RingFiles<'a, 'l, A: Allocator> {
    pub(crate) alloc: &'l A,
    pub(crate) files: &'a [NamedText<'a>],
    pub(crate) logs: &'a Logs<A>,
}

impl<A: Allocator + Clone> RingFiles<'_, '_, A> {
    /// An event, with the file of its node's log.
    pub(crate) fn record(&self, at: EventAt, event: Event) -> Result<RecordAt<A>, OutOfMemory>
        ensures { IfOk result (IsRecordOf self.now.files.now at event) }
    {
        let file = file_of(self.files, at.place);
        RecordAt::new(self.alloc.clone()?, file, at, event)
    }
}
