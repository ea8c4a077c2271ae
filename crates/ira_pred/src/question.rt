ghost use Rattle.std.specs.Prelude.{◌≡◌};
ghost use Rattle.ira_pred.specs.Question.{IsQuestion};
ghost use Rattle.ira_pred.specs.QuestionText.{IsShort};

use crate::case::Case;
use ira_event::RingSize;
use std::alloc::Allocator;
use std::marker::Model;

/// What is asked of the runs of a ring: whether ever all clauses of a case hold at once, for each of
/// 1 to `MAX_CASES` cases. The question's text has at most `MAX_TEXT` bytes.
#[derive(Drop)]
pub struct Question<A: Allocator> {
    nodes: RingSize,
    cases: Vec<Case<A>, A>,
}

impl<A: Allocator> Model for Question<A> {
    ghost use Rattle.std.specs.Coded.{codes};
    ghost use Rattle.ira_pred.specs.FormulaCode.{formula_code};
    ghost use Rattle.ira_pred.specs.Question.{QuestionCases, IsQuestion};
    ghost use Rattle.ira_pred.specs.QuestionText.{IsShort};

    ghost Value = { QuestionCases };

    ghost coded = { Prim.hlevel (codes, formula_code) };

    ghost view = { λ q. record { nodes = q.nodes; cases = q.cases.items } };

    ghost invariant = { λ q. IsQuestion (record { nodes = q.nodes; cases = q.cases.items })
        × IsShort (record { nodes = q.nodes; cases = q.cases.items }) };
}

impl<A: Allocator> Question<A> {
    /// The question of these parts, which are known to be in range.
    pub(crate) fn of_parts(nodes: RingSize, cases: Vec<Case<A>, A>) -> Question<A>
        requires valid { IsQuestion (record { nodes = nodes; cases = cases.items }) }
        requires short { IsShort (record { nodes = nodes; cases = cases.items }) }
        ensures { result ≡ record { nodes = nodes; cases = cases.items } }
    {
        Question { nodes, cases }
    }

    pub fn nodes(&self) -> RingSize
        ensures value { result ≡ self.now.nodes }
        ensures valid { IsQuestion self.now }
        ensures short { IsShort self.now }
    {
        self.nodes
    }

    pub fn cases(&self) -> &[Case<A>]
        ensures value { result.now ≡ self.now.cases }
        ensures valid { IsQuestion self.now }
        ensures short { IsShort self.now }
    {
        &self.cases
    }
}
