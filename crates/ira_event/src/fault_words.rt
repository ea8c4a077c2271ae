ghost use Rattle.std.specs.Prelude.{◌≡◌, ◌+◌, ◌≤◌, ◌++◌, Some, None, length};
ghost use Rattle.ira_event.specs.FaultWords.{said_text};
ghost use Rattle.ira_event.specs.Limits.{MAX_LINE};

use crate::line::Line;
use std::fmt::{self, Display, Formatter, Write};
use std::marker::Model;

/// What is said of a fault: words, and the number that follows them, where one does.
#[derive(Drop)]
pub struct FaultWords {
    pub words: &'static str,
    pub number: Option<u32>,
}

impl Model for FaultWords {
    ghost use Rattle.ira_event.specs.FaultWords.{FaultWords};

    ghost Value = { FaultWords };

    ghost view = { λ said. record { words = said.words.now; number = said.number } };
}

impl FaultWords {
    /// These words alone.
    pub fn new(words: &'static str) -> FaultWords
        ensures { result ≡ record { words = words.now; number = None } }
    {
        FaultWords {
            words,
            number: None,
        }
    }

    /// These words, and then the number.
    pub fn numbered(words: &'static str, number: u32) -> FaultWords
        ensures { result ≡ record { words = words.now; number = Some number } }
    {
        FaultWords {
            words,
            number: Some(number),
        }
    }

    /// Adds them at the end of a line.
    pub fn add_to(&self, line: &mut Line)
        requires { length line.old + length self.now.words + 11 ≤ MAX_LINE }
        ensures text { line.new ≡ line.old ++ said_text self.now }
        ensures len { length line.new ≤ length line.old + length self.now.words + 11 }
    {
        line.add(self.words.as_bytes());
        if let Some(number) = self.number {
            line.add(b" ");
            line.add_number(number);
        }
    }
}

impl Display for FaultWords {
    fn fmt<W: Write>(&self, f: &mut Formatter<W>) -> fmt::Result {
        match self.number {
            None => f.write_str(self.words),
            Some(number) => write!(f, "{} {}", self.words, number),
        }
    }
}
