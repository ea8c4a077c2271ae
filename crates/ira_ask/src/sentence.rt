ghost use Rattle.std.specs.Prelude.{◌≡◌, ◌≤◌, ℕ, List, length};
ghost use Rattle.ira_ask.specs.Reading.{AreSpelled, HasRead, Picked, Reads, fits, texts};
ghost use Rattle.ira_ask.specs.Sentence.{Parts as Said};
ghost use Rattle.ira_ask.specs.SentenceText.{last_part};

use crate::parts::Parts;
use crate::picks::Picks;
use crate::sentence_fault::SentenceFault;
use crate::sentence_part::SentencePart;
use std::alloc::Allocator;

/// The clauses of a sentence, as they are spelled.
#[derive(Clone, Copy)]
pub(crate) struct Sentence<'a> {
    /// Of some node.
    pub any: Option<&'a [u8]>,
    /// Of another one.
    pub other: Option<&'a [u8]>,
    /// Of each node that wasn't picked for these.
    pub each_other: Option<&'a [u8]>,
    /// Of each node.
    pub all: Option<&'a [u8]>,
}

/// The sentence that a text is the text of, or where it goes on as none does.
pub(crate) fn read_sentence<'a, A: Allocator + Clone>(
    alloc: &A,
    text: &'a [u8],
) -> Result<Sentence<'a>, SentenceFault>
    requires { length text.now ≤ 65536 }
    ensures { Reads text.entry.now result }
{
    let mut parts = Parts::new(text);
    let Some(any) = parts.take(alloc, SentencePart::Any)? else {
        return read_last(alloc, parts, None, None, None);
    };
    let other = parts.take(alloc, SentencePart::Other)?;
    let each_other = parts.take(alloc, SentencePart::EachOther)?;
    read_last(alloc, parts, Some(any), other, each_other)
}

/// The sentence whose last part may be left.
fn read_last<'a, A: Allocator + Clone>(
    alloc: &A,
    parts: Parts<'a>,
    any: Option<&'a [u8]>,
    other: Option<&'a [u8]>,
    each_other: Option<&'a [u8]>,
) -> Result<Sentence<'a>, SentenceFault>
    requires { fits parts }
    ensures { (text : List ℕ)
        → HasRead text parts.entry (texts any.entry) (texts other.entry) (texts each_other.entry) → Reads text result }
{
    let mut parts = parts;
    let all = parts.take(alloc, SentencePart::All)?;
    let read = Sentence {
        any,
        other,
        each_other,
        all,
    };
    match parts.left() {
        Some(_) => Err(SentenceFault::NoPart(read.last_part())),
        None => Ok(read),
    }
}

impl<'a> Sentence<'a> {
    /// The part that stands last.
    fn last_part(&self) -> Option<SentencePart>
        ensures { (s : Said) → AreSpelled self.now s → result ≡ last_part s }
    {
        if self.all.is_some() {
            Some(SentencePart::All)
        } else if self.each_other.is_some() {
            Some(SentencePart::EachOther)
        } else if self.other.is_some() {
            Some(SentencePart::Other)
        } else if self.any.is_some() {
            Some(SentencePart::Any)
        } else {
            None
        }
    }

    /// How many nodes it picks.
    pub(crate) fn picks(&self) -> Picks
        ensures { Picked self.now result }
    {
        match (self.any, self.other) {
            (None, _) => Picks::Nobody,
            (_, None) => Picks::One,
            (Some(any), Some(other)) if any == other => Picks::Alike,
            _ => Picks::Two,
        }
    }
}
