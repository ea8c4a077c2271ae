ghost use Rattle.std.specs.Prelude.{◌≡◌};
ghost use Rattle.ira_view_page.specs.Printable.{IsPrintable};
ghost use Rattle.ira_view_explain_question.specs.QuestionFinding.{due_text};

use ira_event::{MAX_NUMBER, scan_number, skip_word};
use ira_pred::MAX_DEPTH;

/// What is said of a bracket that may not be open.
pub(crate) const DEEP: &str = "the 33rd bracket that is open";

/// What is due at a place of a clause.
#[derive(Clone, Copy, Debug, PartialEq, Eq)]
pub(crate) enum DueInClause {
    /// The word or the bracket that a clause begins with.
    Clause,
    /// `<`, `=` or `>`.
    Relation,
    /// A space.
    Space,
    /// A number in its range.
    Number,
    /// The word between two clauses.
    Joint,
    /// The bracket that ends a clause.
    Bracket,
    /// The line's end.
    End,
}

impl DueInClause {
    /// In words.
    pub(crate) fn words(self) -> &'static str
        ensures text { result.now ≡ due_text self }
        ensures printable { IsPrintable result.now }
    {
        match self {
            DueInClause::Clause => {
                "`true`, `leader`, `active`, `passive`, `choosing`, `yielding`, `owes`, `round`, `id`, `term` or `(`"
            }
            DueInClause::Relation => "`<`, `=` or `>`",
            DueInClause::Space => "one space",
            DueInClause::Number => "a number from 0 to 1,000,000",
            DueInClause::Joint => "` and ` or ` or `",
            DueInClause::Bracket => "`)`",
            DueInClause::End => "the end of the line",
        }
    }

    /// It is due where this is left of a line.
    fn at(self, rest: &[u8]) -> ClauseStop<'_> {
        ClauseStop { rest, due: self }
    }
}

/// What is left of a line where it goes on as no clause does, and what is due there.
#[derive(Clone, Copy, Debug)]
pub(crate) struct ClauseStop<'a> {
    pub(crate) rest: &'a [u8],
    pub(crate) due: DueInClause,
}

/// Where what stands after the place goes on as no clause does.
pub(crate) fn clause_stop(text: &[u8]) -> ClauseStop<'_> {
    match after_clause(MAX_DEPTH, text) {
        Ok(rest) => DueInClause::End.at(rest),
        Err(stop) => stop,
    }
}

/// Whether a clause goes on, with this rest, where two that are joined end, with a third.
pub(crate) fn is_chain(clause: &[u8], rest: &[u8]) -> bool {
    let joined = if clause.starts_with(b"(") {
        Ok(rest)
    } else {
        after_joint(rest).and_then(|rest| after_clause(MAX_DEPTH, rest))
    };
    joined.and_then(after_joint).is_ok()
}

/// What follows the clause that the text begins with, nested no deeper than this.
fn after_clause(depth: usize, text: &[u8]) -> Result<&[u8], ClauseStop<'_>> {
    if depth == 0 {
        return after_atom(text);
    }
    if let Some(rest) = skip_word(text, b"(not ") {
        return after_bracket(after_clause(depth - 1, rest)?);
    }
    let Some(rest) = skip_word(text, b"(") else {
        return after_atom(text);
    };
    let rest = after_joint(after_clause(depth - 1, rest)?)?;
    after_bracket(after_clause(depth - 1, rest)?)
}

/// What follows the bracket that ends a clause.
fn after_bracket(text: &[u8]) -> Result<&[u8], ClauseStop<'_>> {
    after_word(text, &[b")"]).ok_or(DueInClause::Bracket.at(text))
}

/// What follows the word between two clauses.
fn after_joint(text: &[u8]) -> Result<&[u8], ClauseStop<'_>> {
    after_word(text, &[b" and ", b" or "]).ok_or(DueInClause::Joint.at(text))
}

/// What follows the first of these words that the text begins with.
fn after_word<'a>(text: &'a [u8], words: &[&[u8]]) -> Option<&'a [u8]> {
    for word in words {
        if let Some(rest) = skip_word(text, word) {
            return Some(rest);
        }
    }
    None
}

/// What follows the clause without brackets that the text begins with.
fn after_atom(text: &[u8]) -> Result<&[u8], ClauseStop<'_>> {
    if let Some(rest) = after_word(text, &[b"round ", b"id ", b"term "]) {
        return after_comparison(rest);
    }
    if let Some(rest) = after_word(text, &[b"true", b"leader", b"active", b"passive"]) {
        return Ok(rest);
    }
    after_word(text, &[b"choosing", b"yielding", b"owes"]).ok_or(DueInClause::Clause.at(text))
}

/// What follows a comparison with a number.
fn after_comparison(text: &[u8]) -> Result<&[u8], ClauseStop<'_>> {
    let rest = after_word(text, &[b"<", b"=", b">"]).ok_or(DueInClause::Relation.at(text))?;
    let rest = skip_word(rest, b" ").ok_or(DueInClause::Space.at(rest))?;
    match scan_number(rest) {
        Some((number, after)) if number <= MAX_NUMBER => Ok(after),
        _ => Err(DueInClause::Number.at(rest)),
    }
}
