ghost use Rattle.std.specs.Prelude.{◌≡◌, IfOk, string_bytes};

use ira_event::{Event, OutOfMemory};
use ira_order::EventAt;
use std::alloc::Allocator;

/// An event, with the file of its log.
#[derive(Drop)]
pub struct RecordAt<A: Allocator> {
    /// The name of the file.
    pub file: String<A>,
    pub at: EventAt,
    pub event: Event,
}

impl<A: Allocator> RecordAt<A> {
    /// An event of the log in the file of this name.
    pub fn new(alloc: A, file: &str, at: EventAt, event: Event) -> Result<RecordAt<A>, OutOfMemory>
        ensures { IfOk result
            (λ r. (string_bytes r.file ≡ file.now) × (r.at ≡ at) × (r.event ≡ event)) }
    {
        let file = String::from_str(alloc, file)?;
        Ok(RecordAt { file, at, event })
    }
}
