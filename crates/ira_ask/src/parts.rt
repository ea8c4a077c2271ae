ghost use Rattle.std.specs.Prelude.{◌≡◌, ◌==◌, MatchOption, position};
ghost use Rattle.ira_ask.specs.Reading.{HasNoPart, SplitsPart, Takes, fits, texts};

use crate::is_clause::is_clause;
use crate::sentence_fault::SentenceFault;
use crate::sentence_part::SentencePart;
use ira_event::skip_word;
use std::alloc::Allocator;
use std::marker::Model;

/// What is left of a sentence, part by part; nothing after the last one.
#[derive(Drop)]
pub(crate) struct Parts<'a> {
    left: Option<&'a [u8]>,
}

impl<'a> Model for Parts<'a> {
    ghost use Rattle.std.specs.Prelude.{ℕ, List, Option};
    ghost use Rattle.ira_ask.specs.Reading.{texts};

    ghost Value = { Option (List ℕ) };

    ghost view = { λ p. texts p.left };
}

/// A clause, and what is left after the comma and the space that follow it.
type Split<'a> = (&'a [u8], Option<&'a [u8]>);

impl<'a> Parts<'a> {
    /// The parts of a sentence.
    pub fn new(text: &'a [u8]) -> Parts<'a>
        ensures { result ≡ Some text.now }
    {
        Parts { left: Some(text) }
    }

    /// What is left, if a part is due.
    pub fn left(&self) -> Option<&'a [u8]>
        ensures { texts result ≡ self.now }
    {
        self.left
    }

    /// Takes this part off, where its word comes next, and gives its clause.
    pub fn take<A: Allocator + Clone>(
        &mut self,
        alloc: &A,
        part: SentencePart,
    ) -> Result<Option<&'a [u8]>, SentenceFault>
        requires { fits self.old }
        ensures { Takes part self.old self.new result }
    {
        let Some(text) = self.left else {
            return Ok(None);
        };
        let Some(text) = skip_word(text, part.word()) else {
            return Ok(None);
        };
        let Some((clause, left)) = split_part(text) else {
            return Err(SentenceFault::NoClause(part));
        };
        if !is_clause(alloc, clause)? {
            return Err(SentenceFault::NoClause(part));
        }
        self.left = left;
        Ok(Some(clause))
    }
}

/// What stands in front of the first comma, where a space follows that, and what is left after both; where the text has
/// no comma, all of it.
fn split_part(text: &[u8]) -> Option<Split<'_>>
    ensures { MatchOption result (HasNoPart text.now) (λ s. SplitsPart text.now s.0.now (texts s.1)) }
{
    let Some(end) = first_comma(text) else {
        return Some((text, None));
    };
    let (clause, rest) = text.split_at(end);
    let left = skip_word(rest, b", ")?;
    Some((clause, Some(left)))
}

/// Where the text's first comma stands.
fn first_comma(text: &[u8]) -> Option<usize>
    ensures { result ≡ position (λ c. c == 44) text.now }
{
    text.iter().position(|c| *c == b',')
}
