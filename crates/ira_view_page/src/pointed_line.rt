ghost use Rattle.std.specs.Prelude.{ℕ, IfOk, List};
ghost use Rattle.ira_view_page.specs.PointedLine.{IsPointed, IsPointedText};
ghost use Rattle.ira_view_page.specs.Page.{Added};

use crate::beside::Beside;
use crate::named_text::NamedText;
use crate::page::{Emphasis, Page};
use crate::quote::quoted_column;
use crate::quoted_line::{Carets, QuotedLine};
use ira_event::OutOfMemory;
use std::alloc::Allocator;

/// A line of a text, and carets below some of its bytes, one at least.
#[derive(Drop)]
pub struct PointedLine {
    /// Counted from 1.
    pub number: usize,
    /// The byte above the first caret, counted from 0.
    pub from: usize,
    /// The byte after the carets.
    pub to: usize,
    /// What stands beside the carets.
    pub beside: Beside,
}

impl PointedLine {
    /// Adds the line of this file, and the carets below it with what stands beside them.
    pub(crate) fn print<A: Allocator>(&self, file: &NamedText<'_>, page: &mut Page<A>)
        ensures { (text : List ℕ) × IsPointedText file.now self.now text × Added page.old text page.new }
    {
        let line = file.line(self.number);
        let start = page.len();
        page.begin(Emphasis::Named);
        page.place(file.name, self.number);
        page.words(":");
        let column = page.len().saturating_sub(start);
        if !line.is_empty() {
            page.words(" ");
            page.quote(line);
        }
        page.end();
        let first = quoted_column(line, self.from);
        page.spaces(column);
        page.words(" ");
        page.spaces(first);
        page.carets(quoted_column(line, self.to).saturating_sub(first));
        page.words(" ");
        self.beside.print(page);
        self.beside.print_end(page);
    }

    /// The line of this file with the carets, and the words beside them.
    pub(crate) fn quoted<A: Allocator + Clone>(
        &self,
        alloc: &A,
        file: &NamedText<'_>,
    ) -> Result<QuotedLine<A>, OutOfMemory>
        ensures { IfOk result (IsPointed file.now self.now) }
    {
        let mut words = Page::new(alloc.clone()?);
        self.beside.print(&mut words);
        let mut line = file.quoted_line(alloc, self.number)?;
        line.carets = Some(Carets {
            byte: self.from.saturating_add(1),
            remark: self.beside.remark,
            words: words.finish()?.into_string(),
        });
        Ok(line)
    }
}
