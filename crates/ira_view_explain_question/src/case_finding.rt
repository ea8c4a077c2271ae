ghost use Rattle.std.specs.Prelude.{◌≡◌, ℕ, IfOk, List};
ghost use Rattle.ira_cert.specs.Conjuncts.{IsAsked};
ghost use Rattle.ira_elim.specs.Found.{IsFound};
ghost use Rattle.ira_elim.specs.declared.found.Found.{Found};
ghost use Rattle.ira_view_evidence.specs.Absence.{ShowsAbsence};
ghost use Rattle.ira_view_page.specs.Page.{Added};
ghost use Rattle.ira_view_explain_question.specs.CaseFinding.{IsAskedOf, IsCaseFinding, TellsFinding, eliminates};
ghost use Rattle.ira_view_explain_question.specs.CaseFinding.{eliminations_text, more_eliminations_text, spent_text};

use crate::asked_lines::clause_at;
use crate::explained_case::ExplainedCase;
use ira_elim::Found;
use ira_event::OutOfMemory;
use ira_view_evidence::{Absence, Elimination};
use ira_view_moment::Moment;
use ira_view_page::{Emphasis, Page};
use std::alloc::Allocator;

/// At most so many eliminations are told.
const MOST_ELIMINATIONS: usize = 12;

/// Why a case is present or absent.
#[derive(Drop)]
pub(crate) enum CaseFinding<A: Allocator> {
    /// The first moment that meets it.
    Present(Moment<A>),
    /// Why no moment meets it.
    Absent(Absence<A>),
}

impl<A: Allocator + Clone> CaseFinding<A> {
    /// Of a case of which this was found.
    pub(crate) fn find(
        case: &ExplainedCase<'_, A>,
        found: &Found<A>,
    ) -> Result<CaseFinding<A>, OutOfMemory>
        requires { IsFound case.now.ring.now.asked.now.logs case.now.case.now found.now }
        ensures { IfOk result (IsCaseFinding case.now.ring.now.asked.now.logs case.now.case.now found.now) }
    {
        let alloc = case.ring.alloc.clone()?;
        match found {
            Found::Present(cut) => {
                let moment = Moment::at_cut(alloc, case.ring.logs(), cut.positions())?;
                Ok(CaseFinding::Present(moment))
            }
            Found::Absent(section) => Ok(CaseFinding::Absent(Absence::of_section(alloc, section)?)),
        }
    }

    /// Adds it to a page.
    pub(crate) fn print(&self, case: &ExplainedCase<'_, A>, page: &mut Page<A>)
        requires { (found : Found A) × IsCaseFinding case.now.ring.now.asked.now.logs case.now.case.now found self.now }
        ensures { (lines : List ℕ)
            × TellsFinding case.now.ring.now.files case.now.ring.now.asked.now case.now.number case.now.case.now
            self.now lines × Added page.old lines page.new }
    {
        match self {
            CaseFinding::Present(moment) => case.print_moment(page, moment),
            CaseFinding::Absent(absence) => {
                case.print_spent(page, absence);
                case.print_eliminations(page, &absence.eliminations);
            }
        }
    }
}

/// Whether some of them eliminates states of the node.
fn eliminates(eliminations: &[Elimination], node: u8) -> bool
    ensures { result ≡ eliminates eliminations.now node }
{
    eliminations.iter().any(|e| e.node == node)
}

impl<A: Allocator + Clone> ExplainedCase<'_, A> {
    /// Adds which node has no state left that it asks for, and whether it ever had one.
    fn print_spent(&self, page: &mut Page<A>, absence: &Absence<A>)
        requires { IsAsked self.now.case.now absence.now.spent }
        ensures { (clause : List ℕ)
            × IsAskedOf self.now.ring.now.files.question.now self.now.ring.now.asked.now.question.cases
            self.now.number self.now.case.now absence.now.spent clause
            × Added page.old
            (spent_text (eliminates absence.now.eliminations.items absence.now.spent) absence.now.spent clause)
            page.new }
    {
        let spent = absence.spent;
        let Some(n) = clause_at(self.case, spent) else {
            unreachable!()
        };
        let asked = self.clause(n);
        page.begin(Emphasis::Plain);
        if eliminates(&absence.eliminations, spent) {
            page.numbered("  Each state of node ", spent as u32);
            page.words(" that meets `");
            page.quote(asked);
            page.words("` is ruled out:");
        } else {
            page.numbered("  Node ", spent as u32);
            page.words(" never met `");
            page.quote(asked);
            page.words("`.");
        }
        page.end();
    }

    /// Adds the first eliminations, and how many there are besides.
    fn print_eliminations(&self, page: &mut Page<A>, eliminations: &[Elimination])
        requires { (spent : ℕ)
            × ShowsAbsence self.now.ring.now.asked.now.logs self.now.case.now eliminations.now spent }
        ensures { Added page.old (eliminations_text self.now.ring.now.files.logs.now
            self.now.ring.now.asked.now.logs eliminations.now) page.new }
    {
        let told = eliminations.len().min(MOST_ELIMINATIONS);
        for elimination in &eliminations[..told] {
            self.ring.print_elimination(page, *elimination);
        }
        print_more_eliminations(page, eliminations.len() - told);
    }
}

/// Adds how many eliminations there are besides, where there are any.
fn print_more_eliminations<P: Allocator>(page: &mut Page<P>, count: usize)
    ensures { Added page.old (more_eliminations_text count) page.new }
{
    if count > 0 {
        page.begin(Emphasis::Plain);
        page.words("    .. and ");
        page.number(count as u64);
        page.words(" more");
        page.end();
    }
}
