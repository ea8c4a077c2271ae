ghost use Rattle.std.specs.Prelude.{◌≡◌, ◌↔◌, IsSome, IfSome, MatchOption};
ghost use Rattle.ira_event.specs.Scan.{Gives};
ghost use Rattle.ira_event.specs.LogScan.{start_at, head_at};
ghost use Rattle.ira_event.specs.LogTextFault.{BeginsWithHead, BeginsWithNoHead};
ghost use Rattle.ira_event.specs.LogHead.{AreInRange};

use crate::limits::MAX_VERSION;
use crate::ring_size::RingSize;
use crate::scan::{scan_number, skip_word};

/// The head of a log text.
#[derive(Clone, Copy, Debug)]
pub struct LogHead {
    pub version: u8,
    pub nodes: RingSize,
    pub place: u8,
    pub initiator: bool,
}

/// The numbers and the start kind of a head as they are spelled, in range or not.
#[derive(Clone, Copy)]
struct HeadLines {
    version: u32,
    nodes: u32,
    place: u32,
    initiator: bool,
}

/// The head that the text begins with, and what follows it.
pub fn scan_head(text: &[u8]) -> Option<(LogHead, &[u8])>
    ensures { MatchOption result (BeginsWithNoHead text.now)
        (λ found. BeginsWithHead text.now found.0 found.1.now) }
{
    let (lines, rest) = scan_head_lines(text)?;
    let head = lines.in_range()?;
    Some((head, rest))
}

impl HeadLines {
    /// The head of these numbers, where there are such a version and such a ring, of which logs of that version may be, and
    /// it has the place.
    fn in_range(self) -> Option<LogHead>
        ensures some { IsSome result ↔ AreInRange self }
        ensures value { IfSome result
            (λ head. (head.version ≡ self.version) × (head.nodes ≡ self.nodes)
            × (head.place ≡ self.place) × (head.initiator ≡ self.initiator)) }
    {
        let version = u8::try_from(self.version).ok()?;
        let nodes = RingSize::of_number(self.nodes)?;
        let place = u8::try_from(self.place).ok()?;
        if !(1..=MAX_VERSION).contains(&version) || place >= nodes.get() {
            return None;
        }
        if !nodes.fits_version(version) {
            return None;
        }
        Some(LogHead {
            version,
            nodes,
            place,
            initiator: self.initiator,
        })
    }
}

#[tactic(auto, unfolding(crate::specs::LogScan::head_at))]
fn scan_head_lines(text: &[u8]) -> Option<(HeadLines, &[u8])>
    ensures { Gives (λ found. (found.0, found.1.now)) result (head_at text.now) }
{
    let rest = skip_word(text, b"irlog ")?;
    let (version, rest) = scan_number(rest)?;
    let rest = skip_word(rest, b"\nnodes ")?;
    let (nodes, rest) = scan_number(rest)?;
    let rest = skip_word(rest, b"\nplace ")?;
    let (place, rest) = scan_number(rest)?;
    let rest = skip_word(rest, b"\nstart ")?;
    let (initiator, rest) = scan_start(rest)?;
    let lines = HeadLines {
        version,
        nodes,
        place,
        initiator,
    };
    Some((lines, rest))
}

fn scan_start(text: &[u8]) -> Option<(bool, &[u8])>
    ensures { Gives (λ found. (found.0, found.1.now)) result (start_at text.now) }
{
    if let Some(rest) = skip_word(text, b"initiator\n") {
        return Some((true, rest));
    }
    let rest = skip_word(text, b"passive\n")?;
    Some((false, rest))
}
