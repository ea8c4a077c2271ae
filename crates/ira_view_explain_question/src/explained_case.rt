ghost use Rattle.std.specs.Prelude.{◌≡◌, ◌≤◌, ◌+◌, ◌*◌, ℕ, ◌<◌, IfOk, List, OnOk, Some, length, slice_get};
ghost use Rattle.ira_cert.specs.Conjuncts.{HasDifferentPlaces, HasPlacesOf};
ghost use Rattle.ira_elim.specs.Found.{IsFound};
ghost use Rattle.ira_pred.specs.Case.{Conjunct};
ghost use Rattle.ira_pred.specs.Limits.{MAX_CASES};
ghost use Rattle.ira_view_page.specs.Lines.{IsFromLine, IsLine};
ghost use Rattle.ira_view_page.specs.Page.{Added};
ghost use Rattle.ira_view_explain_question.specs.AskedLines.{AreClausesTold, IsClauseAt, clause_line};
ghost use Rattle.ira_view_explain_question.specs.ExplainedCase.{IsAskedCase, IsAskedNode, TellsCase};

use crate::asked_lines::clause_of;
use crate::asked_ring::AskedRing;
use crate::case_finding::CaseFinding;
use ira_elim::Found;
use ira_event::OutOfMemory;
use ira_pred::Case;
use ira_view_page::{AskedCase, AskedNode, Emphasis, NamedText, Page};
use std::alloc::Allocator;

/// So many clauses of a case are shown on one line at most.
const MOST_CLAUSES: usize = 8;

/// A case of a question that is explained, its number, and the lines that ask it.
#[derive(Drop)]
pub(crate) struct ExplainedCase<'a, A: Allocator> {
    pub(crate) ring: &'a AskedRing<'a, A>,
    pub(crate) case: &'a Case<A>,
    pub(crate) number: usize,
    /// The line of its first clause.
    pub(crate) first: usize,
    /// The question's file from that line on.
    pub(crate) lines: NamedText<'a>,
    ghost is_there: { slice_get ring.now.asked.now.question.cases number ≡ Some case.now },
    ghost in_ring: { HasPlacesOf ring.now.asked.now.logs case.now },
    ghost different: { HasDifferentPlaces case.now },
    ghost first_is: { first ≡ clause_line ring.now.asked.now.question.cases number 0 },
    ghost small: { first ≤ 256 * MAX_CASES + 4 },
    ghost lines_are: { ∥ IsFromLine ring.now.files.question.now.text.now first lines.text.now ∥₁ },
    ghost name_is: { lines.name.now ≡ ring.now.files.question.now.name.now },
}

impl<'a, A: Allocator + Clone> ExplainedCase<'a, A> {
    /// The line of clause `n` in the question's file.
    pub(crate) fn line(&self, n: usize) -> usize
        requires { n < length self.now.case.now }
        ensures { result ≡ clause_line self.now.ring.now.asked.now.question.cases self.now.number n }
    {
        let _clauses = self.case.len();
        self.first + n
    }

    /// The place and the clause `n`, as the line spells them.
    fn spelling(&self, n: usize) -> &'a [u8]
        requires { n < length self.now.case.now }
        ensures { ∥ IsLine self.now.ring.now.files.question.now.text.now
            (clause_line self.now.ring.now.asked.now.question.cases self.now.number n) result.now ∥₁ }
    {
        let _clauses = self.case.len();
        self.lines.line(n + 1)
    }

    /// The clause `n`, as its line spells it.
    pub(crate) fn clause(&self, n: usize) -> &'a [u8]
        requires { n < length self.now.case.now }
        ensures { IsClauseAt self.now.ring.now.files.question.now self.now.ring.now.asked.now.question.cases
            self.now.number n result.now }
    {
        clause_of(self.spelling(n))
    }

    /// Adds its clauses with their places, parted by commas.
    pub(crate) fn print_clauses<P: Allocator>(&self, page: &mut Page<P>)
        ensures { (text : List ℕ) × AreClausesTold self.now.ring.now.files.question.now
            self.now.ring.now.asked.now.question.cases self.now.number self.now.case.now text
            × Added page.old text page.new }
    {
        let clauses = self.case.len();
        for n in 0..clauses.min(MOST_CLAUSES) {
            if n > 0 {
                page.words(", ");
            }
            page.quote(self.spelling(n));
        }
        if clauses > MOST_CLAUSES {
            page.words(", ..");
        }
    }

    /// Adds what it asks, and what was found for it.
    pub(crate) fn print(&self, page: &mut Page<A>, found: &Found<A>) -> Result<(), OutOfMemory>
        requires { IsFound self.now.ring.now.asked.now.logs self.now.case.now found.now }
        ensures { OnOk result ((text : List ℕ)
            × TellsCase self.now.ring.now.files self.now.ring.now.asked.now self.now.number found.now text
            × Added page.old text page.new) }
    {
        let finding = CaseFinding::find(self, found)?;
        page.blank();
        page.begin(Emphasis::Plain);
        page.words("case ");
        page.number(self.number as u64);
        page.words(" (");
        self.print_clauses(page);
        page.words(")");
        page.end();
        finding.print(self, page);
        Ok(())
    }

    /// The case as a value.
    pub(crate) fn asked_case(&self) -> Result<AskedCase<A>, OutOfMemory>
        ensures { IfOk result (IsAskedCase self.now.ring.now.files.question.now
            self.now.ring.now.asked.now.question.cases self.now.number self.now.case.now) }
    {
        let mut asks = Vec::new(self.ring.alloc.clone()?);
        for n in 0..self.case.len() {
            asks.push(self.asked_node(n)?)?;
        }
        Ok(AskedCase {
            number: self.number,
            asks,
        })
    }

    /// What clause `n` asks of its node.
    fn asked_node(&self, n: usize) -> Result<AskedNode<A>, OutOfMemory>
        requires { n < length self.now.case.now }
        ensures { IfOk result (λ asks. (c : Conjunct) × (slice_get self.now.case.now n ≡ Some c)
            × IsAskedNode self.now.ring.now.files.question.now self.now.ring.now.asked.now.question.cases
            self.now.number n c asks) }
    {
        let mut clause = Page::new(self.ring.alloc.clone()?);
        clause.show(self.clause(n));
        Ok(AskedNode {
            node: self.case.place(n),
            clause: clause.finish()?.into_string(),
            line: self.line(n),
        })
    }
}
