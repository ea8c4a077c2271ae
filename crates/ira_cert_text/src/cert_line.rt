ghost use Rattle.std.specs.Prelude.{◌≡◌, ◌<◌, ◌↔◌, IsSome, IfSome};
ghost use Rattle.ira_event.specs.Scan.{Gives};
ghost use Rattle.ira_cert_text.specs.Certificate.{IsStep};
ghost use Rattle.ira_cert_text.specs.CertScan.{as_step, step_at, section_line_at};

use crate::cert_step::CertStep;
use ira_event::{scan_number, skip_word};

/// The numbers of a step as they are spelled, in range or not.
#[derive(Clone, Copy)]
pub(crate) struct SpelledStep {
    pub node: u32,
    pub pos: u32,
    pub other: u32,
    pub other_pos: u32,
}

/// A line of a section after its first one, its numbers as they are spelled.
#[derive(Clone, Copy)]
pub(crate) enum SpelledLine {
    Step(SpelledStep),
    Spent(u32),
}

impl SpelledStep {
    /// The step of these numbers, where they are in range for so many nodes.
    pub fn in_range(self, nodes: u8) -> Option<CertStep>
        ensures some { IsSome result ↔ IsStep nodes (as_step self) }
        ensures value { IfSome result (λ step. step ≡ as_step self) }
    {
        let step = CertStep {
            node: u8::try_from(self.node).ok()?,
            pos: self.pos,
            other: u8::try_from(self.other).ok()?,
            other_pos: self.other_pos,
        };
        if !step.is_in_range(nodes) {
            return None;
        }
        Some(step)
    }
}

/// The place of that number, where a ring of so many nodes has it.
pub(crate) fn place_in_range(place: u32, nodes: u8) -> Option<u8>
    ensures some { IsSome result ↔ (place < nodes) }
    ensures value { IfSome result (λ p. p ≡ place) }
{
    let place = u8::try_from(place).ok()?;
    if place >= nodes {
        return None;
    }
    Some(place)
}

/// The line of a section, after its first one, that the text begins with, and what follows its line
/// feed.
#[inline(always)]
pub(crate) fn scan_section_line(text: &[u8]) -> Option<(SpelledLine, &[u8])>
    ensures { Gives (λ found. (found.0, found.1.now)) result (section_line_at text.now) }
{
    if let Some(rest) = skip_word(text, b"drop ") {
        let (step, rest) = scan_step(rest)?;
        return Some((SpelledLine::Step(step), rest));
    }
    let rest = skip_word(text, b"spent ")?;
    let (place, rest) = scan_number(rest)?;
    let rest = skip_word(rest, b"\n")?;
    Some((SpelledLine::Spent(place), rest))
}

/// The numbers of a step to its line's end.
#[inline(always)]
#[tactic(auto, unfolding(crate::specs::CertScan::step_at))]
fn scan_step(text: &[u8]) -> Option<(SpelledStep, &[u8])>
    ensures { Gives (λ found. (found.0, found.1.now)) result (step_at text.now) }
{
    let (node, rest) = scan_number(text)?;
    let rest = skip_word(rest, b" ")?;
    let (pos, rest) = scan_number(rest)?;
    let rest = skip_word(rest, b" by ")?;
    let (other, rest) = scan_number(rest)?;
    let rest = skip_word(rest, b" ")?;
    let (other_pos, rest) = scan_number(rest)?;
    let rest = skip_word(rest, b"\n")?;
    let step = SpelledStep {
        node,
        pos,
        other,
        other_pos,
    };
    Some((step, rest))
}
