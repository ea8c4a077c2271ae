ghost use Rattle.std.specs.Prelude.{◌≡◌, ◌<◌, IfOk, Some, length, slice_get};
ghost use Rattle.ira_pred.specs.Case.{Conjunct};
ghost use Rattle.ira_cert.specs.Front.{made};
ghost use Rattle.ira_view_page.specs.Page.{Added};
ghost use Rattle.ira_view_explain_question.specs.FrontLeft.{IsLeft, IsLeftOf, front_text};

use crate::asked_lines::clause_at;
use crate::explained_case::ExplainedCase;
use ira_cand::table;
use ira_cert::CertStep;
use ira_event::OutOfMemory;
use ira_view_page::{Emphasis, Front, Page};
use std::alloc::Allocator;

/// How many steps eliminate a state of a node.
fn made(steps: &[CertStep], node: u8) -> usize
    ensures { result ≡ made steps.now node }
{
    steps.iter().filter(|step| step.node == node).count()
}

impl<A: Allocator + Clone> ExplainedCase<'_, A> {
    /// What these steps of a section left of a node's candidates, where the case asks the node.
    pub(crate) fn left_of(&self, steps: &[CertStep], node: u8) -> Result<Option<Front>, OutOfMemory>
        ensures { IfOk result
            (IsLeftOf self.now.ring.now.asked.now.logs self.now.case.now steps.now node) }
    {
        match clause_at(self.case, node) {
            Some(clause) => Ok(Some(self.left_of_asked(steps, clause)?)),
            None => Ok(None),
        }
    }

    /// The same of the node that a clause asks.
    fn left_of_asked(&self, steps: &[CertStep], clause: usize) -> Result<Front, OutOfMemory>
        requires { clause < length self.now.case.now }
        ensures { IfOk result (λ front. (c : Conjunct) × (slice_get self.now.case.now clause ≡ Some c)
            × (front.node ≡ c.place)
            × IsLeft self.now.ring.now.asked.now.logs self.now.case.now steps.now front) }
    {
        let node = self.case.place(clause);
        let log = self.ring.logs().log(node);
        let candidates = table(self.ring.alloc.clone()?, log, self.case.clause(clause))?;
        let gone = made(steps, node);
        let first = match candidates.get(gone) {
            Some(position) => Some((*position, self.ring.state_after(node, *position))),
            None => None,
        };
        Ok(Front {
            node,
            left: candidates.len().saturating_sub(gone),
            first,
        })
    }
}

/// Adds how many candidates of a node are left, and the first of them, where the node is asked.
pub(crate) fn print_left<P: Allocator>(front: Option<Front>, page: &mut Page<P>)
    ensures { Added page.old (front_text front) page.new }
{
    let Some(front) = front else {
        return;
    };
    page.begin(Emphasis::Plain);
    page.numbered("node ", front.node as u32);
    page.words(": ");
    page.number_of(front.left, "candidate");
    page.words(" left");
    if let Some((position, state)) = front.first {
        page.numbered(", the first ", position);
        page.words(": ");
        page.state(&state);
    }
    page.end();
}
