ghost use Rattle.std.specs.Prelude.{◌≡◌, ◌+◌, ◌<◌, ℕ, IfOk, List};
ghost use Rattle.ira_view_page.specs.Page.{Added, AddedSome};
ghost use Rattle.ira_view_page.specs.Printable.{IsPrintable};
ghost use Rattle.ira_view_page.specs.TextStop.{IsCutStop, IsStopTold, IsWholeLine, IsWholeTold, TellsStop};
ghost use Rattle.ira_view_page.specs.TextStop.{after_end, short_head_text, stop_at};

use crate::beside::{Among, Beside};
use crate::evidence::Evidence;
use crate::named_text::NamedText;
use crate::page::{Emphasis, Page};
use crate::pointed_line::PointedLine;
use crate::remark::Remark;
use ira_event::{MAX_TEXT, OutOfMemory};
use std::alloc::Allocator;

/// What a text shows that is refused.
#[derive(Drop)]
pub enum TextStop {
    TooLong,
    /// It ends in its head: so many whole lines, and a piece of one after these, if that is told.
    ShortHead(usize, Option<PointedLine>),
    Line(PointedLine),
}

impl TextStop {
    /// A line of this number, with these bytes.
    pub fn at(number: usize, from: usize, to: usize, beside: Beside) -> TextStop
        ensures { result ≡ stop_at number from to beside }
    {
        TextStop::Line(PointedLine {
            number,
            from,
            to,
            beside,
        })
    }

    /// All of a line of this number.
    pub fn whole_line(file: &NamedText<'_>, number: usize, beside: Beside) -> TextStop
        ensures { IsWholeLine file.now.text.now number beside result }
    {
        TextStop::at(number, 0, file.line(number).len(), beside)
    }

    /// Of a text that ends too early, with this beside its last whole line.
    pub fn of_cut(file: &NamedText<'_>, last: Beside) -> TextStop
        ensures { IsCutStop file.now.text.now last result }
    {
        match file.piece() {
            Some(piece) => TextStop::Line(piece),
            None => TextStop::whole_line(file, file.whole_lines(), last),
        }
    }

    /// Of a text that goes on after its end line, which is the one of this number.
    pub fn after_end(file: &NamedText<'_>, end: usize) -> TextStop
        requires { end < usize.MAX }
        ensures { IsWholeLine file.now.text.now (end + 1) (after_end end) result }
    {
        let words = "nothing stands after the end line (line ";
        let beside = Beside::new(Remark::Note, words, Among::Number(end), ")");
        TextStop::whole_line(file, end + 1, beside)
    }

    /// Adds it, in this file, whose head should have as many lines as this word says.
    pub fn print<A: Allocator>(&self, file: &NamedText<'_>, due: &str, page: &mut Page<A>)
        requires { IsPrintable due.now }
        ensures { (text : List ℕ) × TellsStop file.now due.now self.now text × Added page.old text page.new }
    {
        match self {
            TextStop::TooLong => print_too_long(file, page),
            TextStop::ShortHead(whole, piece) => {
                print_short_head(file, *whole, due, page);
                if let Some(piece) = piece {
                    piece.print(file, page);
                }
            }
            TextStop::Line(line) => line.print(file, page),
        }
    }

    /// What it rests on: the line, or the text as a whole.
    pub fn evidence<A: Allocator + Clone>(
        &self,
        alloc: &A,
        file: &NamedText<'_>,
    ) -> Result<Evidence<A>, OutOfMemory>
        ensures { IfOk result (IsStopTold file.now self.now) }
    {
        match self {
            TextStop::Line(line) => Ok(Evidence::Line(line.quoted(alloc, file)?)),
            TextStop::ShortHead(_, piece) => match piece {
                Some(piece) => Ok(Evidence::Line(piece.quoted(alloc, file)?)),
                None => whole_text(alloc, file),
            },
            TextStop::TooLong => whole_text(alloc, file),
        }
    }
}

/// The text of a file as a whole, as evidence.
fn whole_text<A: Allocator + Clone>(
    alloc: &A,
    file: &NamedText<'_>,
) -> Result<Evidence<A>, OutOfMemory>
    ensures { IfOk result (IsWholeTold file.now) }
{
    Ok(Evidence::Text(String::from_str(alloc.clone()?, file.name)?))
}

/// Adds that a text is too long.
fn print_too_long<A: Allocator>(file: &NamedText<'_>, page: &mut Page<A>)
    ensures { AddedSome page.old page.new }
{
    page.begin(Emphasis::Plain);
    page.show(file.name.as_bytes());
    page.words(": ");
    page.grouped(file.text.len() as u64);
    page.words(" bytes; a text has at most ");
    page.grouped(MAX_TEXT as u64);
    page.words(".");
    page.end();
}

/// Adds that a text has so many whole lines, and that its head has as many as this word says.
fn print_short_head<A: Allocator>(file: &NamedText<'_>, whole: usize, due: &str, page: &mut Page<A>)
    requires { IsPrintable due.now }
    ensures { Added page.old (short_head_text file.now.name.now whole due.now) page.new }
{
    page.begin(Emphasis::Plain);
    page.show(file.name.as_bytes());
    page.words(": ");
    page.number_of(whole, "whole line");
    page.words("; the head has ");
    page.words(due);
    page.words(".");
    page.end();
}
