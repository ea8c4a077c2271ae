ghost use Rattle.std.specs.Prelude.{◌≡◌, ◌↔◌, ◌≤◌, [], ◌∷◌, length, IfOk, IsTrue};
ghost use Rattle.ira_pred.specs.Case.{Conjunct};
ghost use Rattle.ira_ask.specs.Reading.{IsClauseText};

use ira_event::OutOfMemory;
use ira_pred::{AskFault, Question, read_question};
use std::alloc::Allocator;

/// Whether the text is a clause: whether a question asks it of a node.
pub(crate) fn is_clause<A: Allocator + Clone>(alloc: &A, text: &[u8]) -> Result<bool, OutOfMemory>
    requires { length text.now ≤ 1000000 }
    ensures { IfOk result (λ is. IsTrue is ↔ IsClauseText text.now) }
{
    let mut question = Vec::new(alloc.clone()?);
    question.extend_from_slice(b"irask 1\nnodes 2\ncase\n0: ")?;
    question.extend_from_slice(text)?;
    question.extend_from_slice(b"\nend\n")?;
    match read_question(alloc.clone()?, &question) {
        Ok(question) => Ok(asks_one_clause(&question)),
        Err(fault) => match fault {
            AskFault::OutOfMemory => Err(OutOfMemory),
            _ => Ok(false),
        },
    }
}

/// Whether it asks one clause of one node: a line feed may have made more of a text.
fn asks_one_clause<A: Allocator>(question: &Question<A>) -> bool
    ensures { IsTrue result ↔ ((c : Conjunct) × (question.now.cases ≡ (c ∷ []) ∷ [])) }
{
    match question.cases() {
        [case] => case.len() == 1,
        _ => false,
    }
}
