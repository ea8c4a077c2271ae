use crate::clause_stop::{DEEP, DueInClause, clause_stop};
use crate::question_finding::clause_hint;
use ira_ask::{SentenceFault, SentencePart};
use ira_event::{OutOfMemory, scan_number, skip_word};
use ira_view_page::{Beside, Hint, NamedText, Page, PageText, TextStop};
use std::alloc::Allocator;

/// The text up to its first comma, and what is left.
fn split_at_comma(text: &[u8]) -> (&[u8], &[u8]) {
    match text.iter().position(|c| *c == b',') {
        Some(end) => text.split_at(end),
        None => (text, b""),
    }
}

/// What follows this part, where it stands in front.
fn past(text: &[u8], part: SentencePart) -> &[u8] {
    let Some(clause) = skip_word(text, part.word()) else {
        return text;
    };
    let (_, rest) = split_at_comma(clause);
    skip_word(rest, b", ").unwrap_or(text)
}

/// What follows the word of this part.
fn after_part(sentence: &[u8], part: SentencePart) -> Option<&[u8]> {
    let rest = match part {
        SentencePart::Any => sentence,
        SentencePart::Other => past(sentence, SentencePart::Any),
        SentencePart::EachOther => { past(past(sentence, SentencePart::Any), SentencePart::Other) }
        SentencePart::All => past(
            past(past(sentence, SentencePart::Any), SentencePart::Other),
            SentencePart::EachOther,
        ),
    };
    skip_word(rest, part.word())
}

/// What stands where a clause is due that isn't there, and after it.
fn due_clause(sentence: &[u8], fault: SentenceFault) -> Option<&[u8]> {
    match fault {
        SentenceFault::NoClause(part) => after_part(sentence, part),
        SentenceFault::NoNode => {
            let (_, rest) = scan_number(skip_word(sentence, b"node ")?)?;
            skip_word(rest, b" ")
        }
        _ => None,
    }
}

/// Where a text with this fault goes on as no clause does, with carets below it, what is due there, and a usual cause;
/// nothing where no clause is at fault.
pub fn explain_sentence<A: Allocator>(
    alloc: A,
    sentence: &[u8],
    fault: SentenceFault,
) -> Result<PageText<A>, OutOfMemory> {
    let mut page = Page::new(alloc);
    if let Some(left) = due_clause(sentence, fault) {
        let (clause, more) = split_at_comma(left);
        let end = sentence.len().saturating_sub(more.len());
        let stop = clause_stop(clause);
        let byte = end.saturating_sub(stop.rest.len());
        let beside = match (stop.due, fault) {
            (DueInClause::Clause, _) if stop.rest.starts_with(b"(") => Beside::note(DEEP),
            (DueInClause::End, SentenceFault::NoClause(_)) => Beside::due("`, ` or the end"),
            (due, _) => Beside::due(due.words()),
        };
        let file = NamedText {
            name: "SENTENCE",
            text: sentence,
        };
        TextStop::at(1, byte, byte, beside).print(&file, "", &mut page);
        if let Some(hint) = clause_hint(&sentence[..end], clause, stop.rest) {
            page.words("\n  hint: ");
            hint.print(&mut page);
            page.end();
        }
    }
    page.finish()
}
