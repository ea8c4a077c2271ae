//! Files by name, and readers: how a text comes from them and goes to them.
#![tactic(auto)]

mod counting_reader;
mod draft;
mod file_entry;
mod file_name;
mod file_shelf;
mod leaders_text;
mod new_file;
mod piped_writer;
mod read_text;
mod retrying_reader;
mod shelf;
mod shelf_fault;
mod text_buffer;
mod text_source;

pub use counting_reader::CountingReader;
pub use draft::Draft;
pub use file_entry::{FileEntry, FileId};
pub use file_name::{FileName, slash_after};
pub use file_shelf::FileShelf;
pub use leaders_text::{LeadersFault, read_leaders};
pub use new_file::NewFile;
pub use piped_writer::PipedWriter;
pub use retrying_reader::RetryingReader;
pub use shelf::Shelf;
pub use shelf_fault::ShelfFault;
pub use text_buffer::TextBuffer;
pub use text_source::TextSource;
