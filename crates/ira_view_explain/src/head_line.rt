ghost use Rattle.std.specs.Prelude.{◌≡◌, ◌<◌, ℕ, List, MatchOption, min};
ghost use Rattle.ira_view_page.specs.Beside.{due};
ghost use Rattle.ira_view_explain.specs.HeadLine.{IsFirstStop, IsNumbered, IsWithin, head_number, most_nodes};

use ira_event::{MAX_NODES, MAX_VERSION, MAX_VERSION_1_NODES, scan_number, skip_word};
use ira_view_page::{Among, Beside, NamedText, Remark};

/// A line of a log's head.
#[derive(Clone, Copy)]
pub(crate) enum HeadLine {
    Version,
    /// The ring's size, of which the log's version has so many at most.
    Nodes { most: usize },
    /// The place in a ring of so many nodes.
    Place { nodes: u32 },
    Start,
}

impl HeadLine {
    /// The first of a text's lines that isn't as it should be; the last one where the others are.
    pub(crate) fn first_stop(file: &NamedText<'_>) -> HeadLine
        ensures { IsFirstStop file.now.text.now result }
    {
        let Some(version) = number_within(file.line(1), b"irlog ", 1, MAX_VERSION as usize) else {
            return HeadLine::Version;
        };
        let most = most_nodes(version);
        let Some(nodes) = number_within(file.line(2), b"nodes ", 2, most) else {
            return HeadLine::Nodes { most };
        };
        match number_within(file.line(3), b"place ", 0, nodes as usize - 1) {
            Some(_) => HeadLine::Start,
            None => HeadLine::Place { nodes },
        }
    }

    /// Its number in the text.
    pub(crate) fn number(self) -> usize
        ensures { result ≡ head_number self }
    {
        match self {
            HeadLine::Version => 1,
            HeadLine::Nodes { .. } => 2,
            HeadLine::Place { .. } => 3,
            HeadLine::Start => 4,
        }
    }

    /// That such a line is due.
    pub(crate) fn beside(self) -> Beside
        ensures { (words : List ℕ) × (result ≡ due words) }
    {
        match self {
            HeadLine::Version => Beside::due("`irlog 1` or `irlog 2`"),
            HeadLine::Nodes { most } => {
                let words = "`nodes N` with N from 2 to ";
                Beside::new(Remark::Due, words, Among::Number(most), "")
            }
            HeadLine::Place { nodes } => {
                let last = Among::Number(nodes.saturating_sub(1) as usize);
                Beside::new(Remark::Due, "`place I` with I from 0 to ", last, "")
            }
            HeadLine::Start => Beside::due("`start initiator` or `start passive`"),
        }
    }

    /// The first byte with which no such line goes on, counted from 0.
    pub(crate) fn stop(self, line: &[u8]) -> usize {
        match self {
            HeadLine::Version => number_stop(line, b"irlog ", 1, usize::from(MAX_VERSION)),
            HeadLine::Nodes { most } => number_stop(line, b"nodes ", 2, most),
            HeadLine::Place { nodes } => {
                number_stop(line, b"place ", 0, (nodes as usize).saturating_sub(1))
            }
            HeadLine::Start => {
                common_length(line, b"start initiator").max(common_length(line, b"start passive"))
            }
        }
    }
}

/// The most nodes of a ring whose logs have this version.
fn most_nodes(version: u32) -> usize
    ensures { result ≡ most_nodes version }
{
    if version == 1 {
        MAX_VERSION_1_NODES
    } else {
        MAX_NODES
    }
}

/// With how many of their first bytes both begin.
fn common_length(a: &[u8], b: &[u8]) -> usize {
    a.iter()
        .zip(b.iter())
        .take_while(|(x, y)| **x == **y)
        .count()
}

/// The number of a line of a word and a number, `u32::MAX` for itself and everything above.
pub(crate) fn number_of(line: &[u8], word: &[u8]) -> Option<u32>
    ensures { MatchOption result ((n : ℕ) → ¬ (IsNumbered word.now line.now n))
        (λ kept. (n : ℕ) × IsNumbered word.now line.now n × (kept ≡ min n u32.MAX)) }
{
    let (number, rest) = scan_number(skip_word(line, word)?)?;
    if rest.is_empty() { Some(number) } else { None }
}

/// The same, where the number is in this range.
fn number_within(line: &[u8], word: &[u8], least: usize, most: usize) -> Option<u32>
    requires { most < u32.MAX }
    ensures { MatchOption result ((n : ℕ) → IsNumbered word.now line.now n → ¬ (IsWithin least most n))
        (λ n. IsNumbered word.now line.now n × IsWithin least most n) }
{
    let number = number_of(line, word)?;
    if (least..=most).contains(&(number as usize)) {
        Some(number)
    } else {
        None
    }
}

/// The first byte with which no line of this word and a number in this range goes on.
fn number_stop(line: &[u8], word: &[u8], least: usize, most: usize) -> usize {
    let Some(rest) = skip_word(line, word) else {
        return common_length(line, word);
    };
    match scan_number(rest) {
        Some((number, after)) if (least..=most).contains(&(number as usize)) => {
            line.len().saturating_sub(after.len())
        }
        _ => word.len(),
    }
}
