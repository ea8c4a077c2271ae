ghost use Rattle.std.specs.Prelude.{◌≡◌};
ghost use Rattle.ira_event.specs.Scan.{Gives};
ghost use Rattle.ira_event.specs.LogScan.{bit_at, message_at, reset_at, load_at, number_line, word_at, yield_at, line_at};

use crate::event::Event;
use crate::load::Load;
use crate::msg::Msg;
use crate::scan::{scan_number, skip_word};

/// A line of a log text after its head.
#[derive(Clone, Copy)]
pub enum LogLine {
    Record(Event),
    End(u32),
}

/// The word that a line begins with.
#[derive(Clone, Copy)]
pub(crate) enum LineWord {
    Draw,
    Send,
    Recv,
    End,
}

/// The line that the text begins with, and what follows its line feed. Its numbers are as spelled,
/// in range or not.
#[cold]
#[inline(never)]
#[tactic(auto, using(crate::proofs::LineWords::line_by_word))]
pub fn scan_line(text: &[u8]) -> Option<(LogLine, &[u8])>
    ensures { Gives (λ found. (found.0, found.1.now)) result (line_at text.now) }
{
    let Some((word, rest)) = scan_word(text) else {
        return scan_yield(text);
    };
    match word {
        LineWord::Draw => {
            let (drawn, rest) = scan_number_line(rest)?;
            Some((LogLine::Record(Event::Draw(drawn)), rest))
        }
        LineWord::Send | LineWord::Recv => {
            let (load, rest) = scan_load_line(rest)?;
            let event = match word {
                LineWord::Send => Event::Sent(load),
                _ => Event::Got(load),
            };
            Some((LogLine::Record(event), rest))
        }
        LineWord::End => {
            let (count, rest) = scan_number_line(rest)?;
            Some((LogLine::End(count), rest))
        }
    }
}

/// The yield that the text begins with.
fn scan_yield(text: &[u8]) -> Option<(LogLine, &[u8])>
    ensures { Gives (λ found. (found.0, found.1.now)) result (yield_at text.now) }
{
    let rest = skip_word(text, b"yield\n")?;
    Some((LogLine::Record(Event::Yield), rest))
}

/// The word and the space that the line begins with.
#[inline(always)]
pub(crate) fn scan_word(text: &[u8]) -> Option<(LineWord, &[u8])>
    ensures { Gives (λ found. (found.0, found.1.now)) result (word_at text.now) }
{
    match text {
        [b'd', ..] => Some((LineWord::Draw, skip_word(text, b"draw ")?)),
        [b's', ..] => Some((LineWord::Send, skip_word(text, b"send ")?)),
        [b'r', ..] => Some((LineWord::Recv, skip_word(text, b"recv ")?)),
        [b'e', ..] => Some((LineWord::End, skip_word(text, b"end ")?)),
        _ => None,
    }
}

/// A load to its line's end.
fn scan_load_line(text: &[u8]) -> Option<(Load, &[u8])>
    ensures { Gives (λ found. (found.0, found.1.now)) result (load_at text.now) }
{
    if let Some((message, rest)) = scan_message_line(text) {
        return Some((Load::Msg(message), rest));
    }
    let (hop, rest) = scan_reset_line(text)?;
    Some((Load::Reset(hop), rest))
}

fn scan_reset_line(text: &[u8]) -> Option<(u32, &[u8])>
    ensures { Gives (λ found. (found.0, found.1.now)) result (reset_at text.now) }
{
    let rest = skip_word(text, b"reset ")?;
    scan_number_line(rest)
}

#[inline(always)]
#[tactic(auto, unfolding(crate::specs::LogScan::message_at))]
fn scan_message_line(text: &[u8]) -> Option<(Msg, &[u8])>
    ensures { Gives (λ found. (found.0, found.1.now)) result (message_at text.now) }
{
    let (round, rest) = scan_number(text)?;
    let rest = skip_word(rest, b" ")?;
    let (id, rest) = scan_number(rest)?;
    let rest = skip_word(rest, b" ")?;
    let (hop, rest) = scan_number(rest)?;
    let (dirty, rest) = scan_bit(rest)?;
    let message = Msg {
        round,
        id,
        hop,
        dirty,
    };
    Some((message, rest))
}

#[inline(always)]
pub(crate) fn scan_bit(text: &[u8]) -> Option<(bool, &[u8])>
    ensures { Gives (λ found. (found.0, found.1.now)) result (bit_at text.now) }
{
    let [b' ', a, b, c, d, e, b'\n', rest @ ..] = text else {
        return None;
    };
    // Which word it is can't be foreseen, so it is chosen without a branch.
    let dirty = *a == b'd';
    let word = if dirty { *b"dirty" } else { *b"clean" };
    if [*a, *b, *c, *d, *e] != word {
        return None;
    }
    Some((dirty, rest))
}

#[inline(always)]
fn scan_number_line(text: &[u8]) -> Option<(u32, &[u8])>
    ensures { Gives (λ found. (found.0, found.1.now)) result (number_line text.now) }
{
    let (n, rest) = scan_number(text)?;
    let rest = skip_word(rest, b"\n")?;
    Some((n, rest))
}
