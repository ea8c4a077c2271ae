ghost use Rattle.std.specs.Prelude.{◌++◌, codes, decimal};
ghost use Rattle.ira_pred.specs.Clause.{formula};
ghost use Rattle.ira_pred.specs.QuestionText.{clause_text, rel_sign};
ghost use Rattle.ira_view_page.specs.Page.{Added};
ghost use Rattle.ira_view_page.specs.Printable.{IsPrintable};

use crate::page::Page;
use ira_pred::{Clause, Rel};
use std::alloc::Allocator;

impl<A: Allocator> Page<A> {
    /// Adds a clause as questions spell it.
    pub fn clause<C: Allocator>(&mut self, clause: &Clause<C>)
        ensures { Added self.old (clause_text (formula clause.now)) self.new }
    {
        match clause {
            Clause::Always => self.words("true"),
            Clause::Leader => self.words("leader"),
            Clause::Active => self.words("active"),
            Clause::Passive => self.words("passive"),
            Clause::Choosing => self.words("choosing"),
            Clause::Yielding => self.words("yielding"),
            Clause::Owes => self.words("owes"),
            Clause::Round(rel, n) => self.comparison("round", *rel, *n),
            Clause::Id(rel, n) => self.comparison("id", *rel, *n),
            Clause::Term(rel, n) => self.comparison("term", *rel, *n),
            Clause::Both(left, right) => {
                self.words("(");
                self.clause(left);
                self.words(" and ");
                self.clause(right);
                self.words(")");
            }
            Clause::Either(left, right) => {
                self.words("(");
                self.clause(left);
                self.words(" or ");
                self.clause(right);
                self.words(")");
            }
            Clause::Negated(inner) => {
                self.words("(not ");
                self.clause(inner);
                self.words(")");
            }
        }
    }

    /// Adds how a number of the state compares.
    fn comparison(&mut self, word: &str, rel: Rel, n: u32)
        requires { IsPrintable word.now }
        ensures { Added self.old (word.now ++ codes " " ++ rel_sign rel ++ codes " " ++ decimal n) self.new }
    {
        self.words(word);
        self.words(" ");
        match rel {
            Rel::Less => self.words("<"),
            Rel::Equal => self.words("="),
            Rel::Greater => self.words(">"),
        }
        self.words(" ");
        self.number(n as u64);
    }
}
