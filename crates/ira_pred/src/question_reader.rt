ghost use Rattle.std.specs.Prelude.{◌≡◌};
ghost use Rattle.ira_event.specs.RingSize.{IsRingSize};
ghost use Rattle.ira_pred.specs.QuestionAnswer.{AnswersQuestions, AnswersFaults, AnswersEarlyFaults};
ghost use Rattle.ira_pred.specs.QuestionLines.{CasesRead};

use crate::ask_fault::AskFault;
use crate::case::Case;
use crate::question::Question;
use crate::question_head::scan_head;
use crate::question_line::QuestionLine;
use crate::question_lines::QuestionLines;
use ira_event::MAX_TEXT;
use std::alloc::Allocator;
use std::mem;

/// The question that a text is the text of, or the first fault of a text that is no question's.
pub fn read_question<A: Allocator + Clone>(alloc: A, text: &[u8]) -> Result<Question<A>, AskFault>
    ensures ok { AnswersQuestions result text.now }
    ensures err { AnswersFaults result text.now }
    ensures early { AnswersEarlyFaults result text.now }
{
    if text.len() > MAX_TEXT {
        return Err(AskFault::TooLong);
    }
    let Some(head) = scan_head(text) else {
        return Err(AskFault::Head);
    };
    let cases = read_cases(alloc, head.nodes.get(), QuestionLines::new(head.rest))?;
    Ok(Question::of_parts(head.nodes, cases))
}

/// The cases of all lines after a head, none of which was read yet.
fn read_cases<A: Allocator + Clone>(
    alloc: A,
    nodes: u8,
    lines: QuestionLines<'_>,
) -> Result<Vec<Case<A>, A>, AskFault>
    requires size { IsRingSize nodes }
    requires none { lines.number ≡ 3 }
    ensures { CasesRead nodes (λ cases. cases.items) result lines.entry.rest }
{
    let mut lines = lines;
    lines.first_case()?;
    let mut cases = Vec::new(alloc.clone()?);
    let mut asked = Vec::new(alloc.clone()?);
    loop {
        match lines.next_in_case(&alloc, nodes, cases.len(), &asked)? {
            QuestionLine::Clause(placed) => asked.push(placed)?,
            QuestionLine::Case => {
                let next = Vec::new(alloc.clone()?);
                cases.push(Case::of_parts(mem::replace(&mut asked, next)))?;
            }
            QuestionLine::End => {
                cases.push(Case::of_parts(asked))?;
                return Ok(cases);
            }
        }
    }
}
