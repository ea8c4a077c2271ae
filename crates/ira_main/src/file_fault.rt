ghost use Rattle.std.specs.Prelude.{◌≡◌, codes, decimal};
ghost use Rattle.ira_event.specs.Sink.{Wrote};
ghost use Rattle.ira_main.specs.FileFault.{file_fault_text, line_naming, name_of, no_place_text};

use crate::shown_name::write_shown;
use ira_commands::Reply;
use ira_event::{Line, Sink, WriteFault, write_bytes};
use ira_main_files::FileName;
use std::alloc::Allocator;

/// What comes of a command: a reply, or why it is refused for a file.
pub(crate) type Answered<A> = Result<Reply<A>, FileFault<A>>;

/// Why a command is refused for a file that it would read or make.
#[derive(Drop)]
pub enum FileFault<A: Allocator> {
    /// The file of this name can't be read.
    Unread(FileName<A>),
    /// The line of this number of the file of this name isn't that of a place, as those of leaders are.
    NoPlaceInLine(u32, FileName<A>),
    /// A picture or a page was to be drawn into the file of this name, which ends as neither does.
    OtherEnding(FileName<A>),
    /// A new file would be written over the one of this name, which is one of the input.
    WouldOverwrite(FileName<A>),
}

#[tactic(auto, using(ira_event::proofs::Writing::writes))]
pub(crate) fn write_naming<W: Sink>(
    before: &[u8],
    name: &str,
    sink: &mut W,
) -> Result<(), WriteFault>
    ensures { Wrote result (line_naming before.now name.now) (W.state sink.old) (W.state sink.new) }
{
    write_bytes(before, sink)?;
    write_shown(name, sink)?;
    write_bytes(b"\n", sink)
}

fn no_place_in(line: u32) -> Line
    ensures { result ≡ no_place_text line }
{
    let mut before = Line::new();
    before.add(b"ira: no place in line ");
    before.add_number(line);
    before.add(b" of ");
    before
}

#[tactic(auto, using(ira_event::proofs::Writing::writes))]
fn write_no_place<V: Sink>(line: u32, name: &str, err: &mut V) -> Result<(), WriteFault>
    ensures { Wrote result (line_naming (no_place_text line) name.now) (V.state err.old) (V.state err.new) }
{
    no_place_in(line).write(err)?;
    write_naming(b"", name, err)
}

impl<A: Allocator> FileFault<A> {
    pub(crate) fn into_name(self) -> FileName<A>
        ensures { result ≡ name_of self }
    {
        match self {
            FileFault::Unread(name) => name,
            FileFault::NoPlaceInLine(_, name) => name,
            FileFault::OtherEnding(name) => name,
            FileFault::WouldOverwrite(name) => name,
        }
    }

    pub(crate) fn write<V: Sink>(&self, err: &mut V) -> Result<(), WriteFault>
        ensures { Wrote result (file_fault_text self.now) (V.state err.old) (V.state err.new) }
    {
        match self {
            FileFault::Unread(name) => write_naming(b"ira: cannot read ", name.as_str(), err),
            FileFault::NoPlaceInLine(line, name) => write_no_place(*line, name.as_str(), err),
            FileFault::OtherEnding(name) => write_naming(
                b"ira: --out ends in neither .svg nor .html: ",
                name.as_str(),
                err,
            ),
            FileFault::WouldOverwrite(name) => {
                write_naming(b"ira: would overwrite ", name.as_str(), err)
            }
        }
    }
}
