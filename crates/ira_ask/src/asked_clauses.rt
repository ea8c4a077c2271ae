ghost use Rattle.std.specs.Prelude.{◌≡◌, ◌≤◌, ◌++◌, length, IfOk, OnOk, codes, decimal};
ghost use Rattle.std.specs.Option.{option_map};
ghost use Rattle.ira_pred.specs.QuestionText.{case_text};
ghost use Rattle.ira_ask.specs.Asked.{case_of, wanted};
ghost use Rattle.ira_ask.specs.AskedTexts.{AreAsked, AsksClauses};
ghost use Rattle.ira_ask.specs.Reading.{AreShort, IsClauseText, Joins, JoinsBoth, Spells, texts, fits};
ghost use Rattle.ira_ask.specs.Sentence.{Parts as Said};

use crate::is_clause::is_clause;
use crate::places::Places;
use crate::sentence::Sentence;
use crate::sentence_fault::SentenceFault;
use ira_event::OutOfMemory;
use itoa::Buffer;
use std::alloc::Allocator;

/// What is asked of a node, with what is asked of all: of those that were picked, and of each other one.
#[derive(Drop)]
pub(crate) struct AskedClauses<A: Allocator> {
    any: Option<Vec<u8, A>>,
    other: Option<Vec<u8, A>>,
    each_other: Option<Vec<u8, A>>,
}

impl<A: Allocator + Clone> AskedClauses<A> {
    /// What a sentence asks.
    pub(crate) fn new(alloc: &A, sentence: &Sentence<'_>) -> Result<AskedClauses<A>, SentenceFault>
        requires { AreShort sentence.now }
        ensures { AsksClauses sentence.now result }
    {
        Ok(AskedClauses {
            any: together(alloc, sentence.any, sentence.all)?,
            other: together(alloc, sentence.other, sentence.all)?,
            each_other: together(alloc, sentence.each_other, sentence.all)?,
        })
    }

    /// What is asked of the node at the place, where these were picked.
    fn at(&self, picked: Places, place: u8) -> &Option<Vec<u8, A>>
        ensures { (s : Said) → AreAsked self.now s
            → Spells (option_map (λ t. t.items) result.now) (wanted s picked place) }
    {
        if picked.any == Some(place) {
            return &self.any;
        }
        if picked.other == Some(place) {
            return &self.other;
        }
        &self.each_other
    }

    /// Adds the case of these places in a ring of so many nodes.
    pub(crate) fn push_case(
        &self,
        nodes: u8,
        picked: Places,
        text: &mut Vec<u8, A>,
    ) -> Result<(), OutOfMemory>
        ensures { OnOk result ((s : Said) → AreAsked self.now s
            → text.new.items ≡ text.old.items ++ case_text (case_of nodes s picked)) }
    {
        text.extend_from_slice(b"case\n")?;
        for place in 0..nodes {
            if let Some(clause) = self.at(picked, place) {
                push_line(place, clause, text)?;
            }
        }
        Ok(())
    }
}

/// Adds the line of a place.
pub(crate) fn push_line<A: Allocator>(
    place: u8,
    clause: &[u8],
    text: &mut Vec<u8, A>,
) -> Result<(), OutOfMemory>
    ensures { OnOk result
        (text.new.items ≡ text.old.items ++ decimal place ++ codes ": " ++ clause.now ++ codes "\n") }
{
    text.extend_from_slice(Buffer::new().format(place).as_bytes())?;
    text.extend_from_slice(b": ")?;
    text.extend_from_slice(clause)?;
    text.extend_from_slice(b"\n")?;
    Ok(())
}

/// Both clauses as one, where there are both, or else the one that there is.
fn together<A: Allocator + Clone>(
    alloc: &A,
    own: Option<&[u8]>,
    all: Option<&[u8]>,
) -> Result<Option<Vec<u8, A>>, SentenceFault>
    requires own { fits (texts own) }
    requires all { fits (texts all) }
    ensures { Joins (option_map (λ t. t.items)) (texts own.entry) (texts all.entry) result }
{
    match (own, all) {
        (Some(own), Some(all)) => both(alloc, own, all),
        (Some(clause), None) | (None, Some(clause)) => Ok(Some(copied(alloc, clause)?)),
        (None, None) => Ok(None),
    }
}

fn copied<A: Allocator + Clone>(alloc: &A, text: &[u8]) -> Result<Vec<u8, A>, OutOfMemory>
    ensures { IfOk result (λ copy. copy.items ≡ text.now) }
{
    let mut copy = Vec::new(alloc.clone()?);
    copy.extend_from_slice(text)?;
    Ok(copy)
}

/// The clause that both hold.
fn both<A: Allocator + Clone>(
    alloc: &A,
    own: &[u8],
    all: &[u8],
) -> Result<Option<Vec<u8, A>>, SentenceFault>
    requires own { length own.now ≤ 65536 }
    requires all { length all.now ≤ 65536 }
    ensures { JoinsBoth (option_map (λ t. t.items)) own.now all.now result }
{
    let mut clause = Vec::new(alloc.clone()?);
    clause.extend_from_slice(b"(")?;
    clause.extend_from_slice(own)?;
    clause.extend_from_slice(b" and ")?;
    clause.extend_from_slice(all)?;
    clause.extend_from_slice(b")")?;
    if !is_clause(alloc, &clause)? {
        return Err(SentenceFault::TooDeep);
    }
    Ok(Some(clause))
}
