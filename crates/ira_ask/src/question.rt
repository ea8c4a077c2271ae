ghost use Rattle.std.specs.Prelude.{◌≡◌, ◌≤◌, ◌++◌, IfOk, codes, decimal, length};
ghost use Rattle.ira_event.specs.Scan.{Gives};
ghost use Rattle.ira_ask.specs.AskedTexts.{AreAsked, Writes, asked_of};
ghost use Rattle.ira_ask.specs.Reading.{place_at};
ghost use Rattle.ira_ask.specs.Sentence.{Parts};
ghost use Rattle.ira_ask.specs.SentenceAnswer.{Answers};

use crate::asked_clauses::{AskedClauses, push_line};
use crate::is_clause::is_clause;
use crate::limits::MAX_SENTENCE;
use crate::places::{Places, choices};
use crate::sentence::read_sentence;
use crate::sentence_fault::SentenceFault;
use ira_event::{MAX_TEXT, OutOfMemory, RingSize, scan_number, skip_word};
use ira_pred::MAX_CASES;
use itoa::Buffer;
use std::alloc::Allocator;

/// The text of the question that a sentence stands for, of a ring of so many nodes: some cut meets a case of it exactly
/// where the sentence holds of that cut.
pub fn ask<A: Allocator + Clone>(
    alloc: A,
    nodes: RingSize,
    sentence: &[u8],
) -> Result<Vec<u8, A>, SentenceFault>
    ensures { Answers (λ text. text.items) nodes sentence.now result }
{
    let nodes = nodes.get();
    if sentence.len() > MAX_SENTENCE {
        return Err(SentenceFault::TooLong);
    }
    if let Some(rest) = skip_word(sentence, b"node ") {
        return ask_node(alloc, nodes, rest);
    }
    let sentence = read_sentence(&alloc, sentence)?;
    let clauses = AskedClauses::new(&alloc, &sentence)?;
    let choices = choices(alloc.clone()?, nodes, sentence.picks())?;
    if choices.len() > MAX_CASES {
        return Err(SentenceFault::ManyCases);
    }
    question_text(alloc, nodes, &clauses, &choices)
}

/// The same of a sentence on one node, after its word.
fn ask_node<A: Allocator + Clone>(
    alloc: A,
    nodes: u8,
    sentence: &[u8],
) -> Result<Vec<u8, A>, SentenceFault>
    requires { length (codes "node " ++ sentence.now) ≤ 65536 }
    ensures { Answers (λ text. text.items) nodes (codes "node " ++ sentence.now) result }
{
    let Some((place, clause)) = scan_place(sentence) else {
        return Err(SentenceFault::NoNode);
    };
    if !is_clause(&alloc, clause)? {
        return Err(SentenceFault::NoNode);
    }
    if place >= u32::from(nodes) {
        return Err(SentenceFault::NoPlace);
    }
    let mut text = question_head(alloc, nodes)?;
    text.extend_from_slice(b"case\n")?;
    push_line(place as u8, clause, &mut text)?;
    text.extend_from_slice(b"end\n")?;
    Ok(text)
}

/// The place in front, its number as it is spelled, and what follows the space after it.
fn scan_place(text: &[u8]) -> Option<(u32, &[u8])>
    ensures { Gives (λ found. (found.0, found.1.now)) result (place_at text.now) }
{
    let (place, rest) = scan_number(text)?;
    let rest = skip_word(rest, b" ")?;
    Some((place, rest))
}

/// The first two lines of a question.
fn question_head<A: Allocator>(alloc: A, nodes: u8) -> Result<Vec<u8, A>, OutOfMemory>
    ensures { IfOk result (λ text. text.items ≡ codes "irask 1\nnodes " ++ decimal nodes ++ codes "\n") }
{
    let mut text = Vec::new(alloc);
    text.extend_from_slice(b"irask 1\nnodes ")?;
    text.extend_from_slice(Buffer::new().format(nodes).as_bytes())?;
    text.extend_from_slice(b"\n")?;
    Ok(text)
}

/// The text of the question with a case for each choice.
fn question_text<A: Allocator + Clone>(
    alloc: A,
    nodes: u8,
    clauses: &AskedClauses<A>,
    choices: &[Places],
) -> Result<Vec<u8, A>, SentenceFault>
    ensures { (s : Parts) → AreAsked clauses.now s
        → Writes (λ text. text.items) (asked_of nodes s choices.now) result }
{
    let mut text = question_head(alloc, nodes)?;
    for picked in choices {
        clauses.push_case(nodes, *picked, &mut text)?;
        if text.len() > MAX_TEXT {
            return Err(SentenceFault::LongQuestion);
        }
    }
    text.extend_from_slice(b"end\n")?;
    if text.len() > MAX_TEXT {
        return Err(SentenceFault::LongQuestion);
    }
    Ok(text)
}
