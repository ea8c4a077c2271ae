ghost use Rattle.std.specs.Prelude.{◌≡◌, ◌≤◌, IfOk, None};
ghost use Rattle.ira_view_page.specs.Lines.{IsFromLine, IsLine, whole_lines};
ghost use Rattle.ira_view_page.specs.PointedLine.{IsQuoted};
ghost use Rattle.ira_view_page.specs.TextStop.{IsPiece};

use crate::beside::Beside;
use crate::first_line::split_line;
use crate::page::Page;
use crate::pointed_line::PointedLine;
use crate::quoted_line::QuotedLine;
use ira_event::OutOfMemory;
use std::alloc::Allocator;

/// A text with the name of the file that it is of.
#[derive(Clone, Copy, Debug)]
pub struct NamedText<'a> {
    pub name: &'a str,
    pub text: &'a [u8],
}

impl<'a> NamedText<'a> {
    /// How many lines end in a line feed.
    pub fn whole_lines(&self) -> usize
        ensures { result ≡ whole_lines self.now.text.now }
    {
        self.text.iter().filter(|c| **c == b'\n').count()
    }

    /// A line, counted from 1, without its line feed: a piece after the last line feed is one too, and further ones
    /// are empty.
    pub fn line(&self, number: usize) -> &'a [u8]
        ensures { 1 ≤ number → IsLine self.now.text.now number result.now }
    {
        let rest = self.from_line(number);
        match split_line(rest) {
            Some((line, _)) => line,
            None => rest,
        }
    }

    /// All from a line on.
    pub fn from_line(&self, number: usize) -> &'a [u8]
        ensures { 1 ≤ number → IsFromLine self.now.text.now number result.now }
    {
        let mut rest = self.text;
        for line in 1..number {
            rest = match split_line(rest) {
                Some((_, after)) => after,
                None => b"",
            };
        }
        rest
    }

    /// What follows the last whole line, of which the line feed is due, if anything does.
    pub fn piece(&self) -> Option<PointedLine>
        ensures { IsPiece self.now.text.now result }
    {
        let number = self.whole_lines() + 1;
        let end = self.line(number).len();
        if end == 0 {
            return None;
        }
        Some(PointedLine {
            number,
            from: end,
            to: end,
            beside: Beside::due("a line feed"),
        })
    }

    /// A line, counted from 1, as it is quoted, without carets.
    pub fn quoted_line<A: Allocator + Clone>(
        &self,
        alloc: &A,
        number: usize,
    ) -> Result<QuotedLine<A>, OutOfMemory>
        ensures quoted { IfOk result (IsQuoted self.now number) }
        ensures carets { IfOk result (λ line. line.carets ≡ None) }
    {
        let mut text = Page::new(alloc.clone()?);
        text.quote(self.line(number));
        Ok(QuotedLine {
            file: String::from_str(alloc.clone()?, self.name)?,
            number,
            text: text.finish()?.into_string(),
            carets: None,
        })
    }
}
