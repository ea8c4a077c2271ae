ghost use Rattle.std.specs.Prelude.{◌≡◌, ◌++◌};
ghost use Rattle.ira_view_page.specs.Beside.{among_text, due, line_end, note};
ghost use Rattle.ira_view_page.specs.Page.{Added};
ghost use Rattle.ira_view_page.specs.Printable.{IsPrintable};

use crate::page::Page;
use crate::remark::Remark;
use std::alloc::Allocator;
use std::marker::Model;

/// What stands in the midst of words.
#[derive(Clone, Copy)]
pub enum Among {
    Nothing,
    Number(usize),
    /// So many records, and on which lines of a log they are.
    Records(usize),
}

/// What stands beside carets below a line.
#[derive(Drop)]
pub struct Beside {
    pub(crate) remark: Remark,
    words: &'static str,
    among: Among,
    after: &'static str,
}

impl Model for Beside {
    ghost use Rattle.std.specs.Prelude.{◌++◌};
    ghost use Rattle.ira_view_page.specs.Beside.{Said, among_text};
    ghost use Rattle.ira_view_page.specs.Printable.{IsPrintable};

    ghost Value = { Said };

    ghost view = { λ b. record { remark = b.remark; text = b.words.now ++ among_text b.among ++ b.after.now } };

    ghost invariant = { λ b. IsPrintable b.words.now × IsPrintable b.after.now };
}

impl Beside {
    /// Words, something in their midst, and words after that.
    pub fn new(remark: Remark, words: &'static str, among: Among, after: &'static str) -> Beside
        requires { IsPrintable words.now × IsPrintable after.now }
        ensures { result ≡ record { remark = remark; text = words.now ++ among_text among ++ after.now } }
    {
        Beside {
            remark,
            words,
            among,
            after,
        }
    }

    /// That this is due.
    pub fn due(words: &'static str) -> Beside
        requires { IsPrintable words.now }
        ensures { result ≡ due words.now }
    {
        Beside::new(Remark::Due, words, Among::Nothing, "")
    }

    /// These words.
    pub fn note(words: &'static str) -> Beside
        requires { IsPrintable words.now }
        ensures { result ≡ note words.now }
    {
        Beside::new(Remark::Note, words, Among::Nothing, "")
    }

    /// Adds its words, of what is due only what that is.
    pub(crate) fn print<A: Allocator>(&self, page: &mut Page<A>)
        ensures { Added page.old self.now.text page.new }
    {
        page.words(self.words);
        page.among(self.among);
        page.words(self.after);
    }

    /// Adds what follows them on its line.
    pub(crate) fn print_end<A: Allocator>(&self, page: &mut Page<A>)
        ensures { Added page.old (line_end self.now.remark) page.new }
    {
        match self.remark {
            Remark::Due => page.words(" is due here\n"),
            Remark::Note => page.end(),
        }
    }
}

impl<A: Allocator> Page<A> {
    /// Adds what stands in the midst of words.
    fn among(&mut self, among: Among)
        ensures { Added self.old (among_text among) self.new }
    {
        match among {
            Among::Nothing => {}
            Among::Number(number) => self.number(number as u64),
            Among::Records(count) => {
                self.number_of(count, "record");
                if count > 0 {
                    self.words(" (lines 5 to ");
                    self.number(count.saturating_add(4) as u64);
                    self.words(")");
                }
            }
        }
    }
}
