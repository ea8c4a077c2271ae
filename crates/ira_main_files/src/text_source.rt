ghost use Rattle.std.specs.Prelude.{◌≤◌, ◌+◌, Ok, Err, length, IfOk, MatchResult};
ghost use Rattle.ira_main_files.specs.Shelf.{Reading};

use crate::file_entry::FileEntry;
use crate::shelf_fault::ShelfFault;
use crate::text_buffer::TextBuffer;
use ira_event::MAX_TEXT;
use std::alloc::Allocator;

/// Where texts lie in files, each under a name. Several threads may read them at once.
pub trait TextSource {
    // what comes of `read` and of `look_up`
    ghost reads: { Reading Self };

    /// Reads the bytes of a file, to its end or to one more than `MAX_TEXT`, whichever comes first. They are the
    /// text then.
    fn read<A: Allocator>(&self, name: &str, text: &mut TextBuffer<A>) -> Result<(), ShelfFault>
        ensures size { IfOk result (λ _. length text.new ≤ MAX_TEXT + 1) }
        ensures read { MatchResult result (λ _. reads.text self.now name.now (Ok text.new))
            (λ fault. reads.text self.now name.now (Err fault)) };

    /// Looks up what a name leads to, and reads nothing.
    fn look_up(&self, name: &str) -> FileEntry
        ensures { reads.entry self.now name.now result };
}
