ghost use Rattle.std.specs.Prelude.{◌≡◌, ◌≤◌, ◌<◌, length, take};
ghost use Rattle.ira_view_page.specs.Page.{Added};
ghost use Rattle.ira_view_page.specs.Places.{place_text, record_text};
ghost use Rattle.ira_view_page.specs.Printable.{shown};
ghost use Rattle.ira_view_page.specs.Quoted.{fitting, quoted_column, quoted_text, quoted_width};

use crate::page::Page;
use crate::places::line_of;
use crate::width::{byte_width, shown_width};
use ira_event::Event;
use std::alloc::Allocator;

/// The most characters of a line of a file that are shown.
const QUOTED: usize = 80;

impl<A: Allocator> Page<A> {
    /// Adds `FILE:LINE`.
    pub fn place(&mut self, file: &str, line: usize)
        ensures { Added self.old (place_text file.now line) self.new }
    {
        self.show(file.as_bytes());
        self.words(":");
        self.number(line as u64);
    }

    /// Adds `FILE:LINE: RECORD` of an event.
    pub fn record(&mut self, file: &str, position: u32, event: Event)
        ensures { Added self.old (record_text file.now position event) self.new }
    {
        self.place(file, line_of(position));
        self.words(": ");
        self.event(event);
    }

    /// Adds a line of a file, of which at most 80 characters are shown.
    pub fn quote(&mut self, line: &[u8])
        ensures { Added self.old (quoted_text line.now) self.new }
    {
        if shown_width(line) <= QUOTED {
            self.show(line);
        } else {
            self.show(&line[..fitting(line)]);
            self.words("..");
        }
    }
}

/// How wide what is shown of a line is, without the two points.
fn quoted_width(line: &[u8]) -> usize
    ensures value { result ≡ quoted_width line.now }
    ensures narrow { result ≤ 80 }
{
    let width = shown_width(line);
    if width <= QUOTED {
        width
    } else {
        shown_width(&line[..fitting(line)])
    }
}

/// How many bytes of a long line are shown, so that two points have room after them.
fn fitting(line: &[u8]) -> usize
    requires { 80 < length (shown line.now) }
    ensures value { result ≡ fitting 78 line.now }
    ensures within { result ≤ length line.now }
    ensures narrow { length (shown (take result line.now)) ≤ 78 }
{
    let mut width = 0usize;
    for i in 0..line.len() {
        width = width.saturating_add(byte_width(line[i]));
        if width > QUOTED - 2 {
            return i;
        }
    }
    unreachable!()
}

/// At which column of its quote a byte of a line stands, both counted from 0; one after the line stands at its end, and one
/// that isn't shown where the two points do.
pub fn quoted_column(line: &[u8], byte: usize) -> usize
    ensures { result ≡ quoted_column line.now byte }
{
    shown_width(&line[..byte.min(line.len())]).min(quoted_width(line))
}
