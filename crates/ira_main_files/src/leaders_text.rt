ghost use Rattle.std.specs.Prelude.{◌≡◌, MatchOption, MatchResult};
ghost use Rattle.ira_main_files.specs.LeadersText.{AreLeaders, BeginsWithNoPlace, BeginsWithPlace, IsLeadersFault};

use ira_event::{MAX_NODES, scan_number, skip_word};
use std::alloc::Allocator;

/// Why a text isn't that of leaders.
#[derive(Clone, Copy)]
pub enum LeadersFault {
    /// The line of this number, counted from 1, isn't that of a place, or is one too many.
    Line(u32),
    /// A growth was refused.
    OutOfMemory,
}

/// The place on the line that the text begins with, and what follows it.
fn scan_place(text: &[u8]) -> Option<(u32, &[u8])>
    ensures { MatchOption result (BeginsWithNoPlace text.now) (λ found. BeginsWithPlace text.now found.0 found.1.now) }
{
    let (place, rest) = scan_number(text)?;
    let rest = skip_word(rest, b"\n")?;
    if place < MAX_NODES as u32 {
        Some((place, rest))
    } else {
        None
    }
}

/// The leaders that a text names, a place a line.
pub fn read_leaders<A: Allocator>(alloc: A, text: &[u8]) -> Result<Vec<u64, A>, LeadersFault>
    ensures { MatchResult result (λ leaders. AreLeaders text.now leaders.items) (IsLeadersFault text.now) }
{
    let mut leaders = Vec::new(alloc);
    let mut rest = text;
    for line in 1..=MAX_NODES as u32 {
        if rest.is_empty() {
            return Ok(leaders);
        }
        let Some((place, after)) = scan_place(rest) else {
            return Err(LeadersFault::Line(line));
        };
        if leaders.push(u64::from(place)).is_err() {
            return Err(LeadersFault::OutOfMemory);
        }
        rest = after;
    }
    if rest.is_empty() {
        Ok(leaders)
    } else {
        Err(LeadersFault::Line(MAX_NODES as u32 + 1))
    }
}
