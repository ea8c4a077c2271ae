ghost use Rattle.std.specs.Prelude.{◌≡◌, ◌≤◌, length};
ghost use Rattle.ira_ask.specs.SentenceText.{word_of};

/// A part of a sentence.
#[derive(Clone, Copy, Debug, PartialEq, Eq)]
pub enum SentencePart {
    Any,
    Other,
    EachOther,
    All,
}

impl SentencePart {
    /// What it begins with: its word, and a space.
    pub fn word(self) -> &'static [u8]
        ensures text { result.now ≡ word_of self }
        ensures short { length result.now ≤ 11 }
    {
        match self {
            SentencePart::Any => b"any ",
            SentencePart::Other => b"other ",
            SentencePart::EachOther => b"each other ",
            SentencePart::All => b"all ",
        }
    }
}
