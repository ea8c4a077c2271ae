ghost use Rattle.std.specs.Prelude.{◌≡◌, ◌+◌, ◌≤◌, ◌<◌, true, ℕ, Some, IfSome, drop, length};
ghost use Rattle.ira_event.specs.Event.{is_event, is_msg, is_number, is_of_version};
ghost use Rattle.ira_event.specs.LogScan.{line_at, message_at};
ghost use Rattle.ira_event.specs.Scan.{kept_at};
ghost use Rattle.ira_event.specs.declared.log_line.LogLine.TheVariants.{Record};
ghost use Rattle.ira_event.specs.declared.short_record.TheConstants.{NUMBER_ROOM, MESSAGE_ROOM};

use crate::event::Event;
use crate::load::Load;
use crate::log_line::{LineWord, scan_bit, scan_word};
use crate::msg::Msg;
use crate::scan::{skip_word, to_digit};

/// A short number has at most six digits and isn't 0, so it is within the limits. This is room for
/// its digits and the byte after them.
const NUMBER_ROOM: usize = 7;

const MESSAGE_ROOM: usize = 3 * NUMBER_ROOM;

const RECORD_ROOM: usize = 5 + MESSAGE_ROOM;

/// The record of short numbers whose line the text begins with, and what follows its line feed.
/// `None` tells nothing of the text. Nearly all records are read here: with room for each number, no
/// digit asks whether the text goes on.
#[inline(always)]
pub(crate) fn scan_short_record(text: &[u8]) -> Option<(Event, &[u8])>
    ensures line { IfSome result (λ found. line_at text.now ≡ Some (Record found.0, found.1.now)) }
    ensures in_range { IfSome result (λ found. is_event found.0 ≡ true) }
    ensures version { (version : ℕ) → IfSome result (λ found. is_of_version version found.0 ≡ true) }
{
    if text.len() < RECORD_ROOM {
        return None;
    }
    let (word, rest) = scan_word(text)?;
    match word {
        LineWord::Draw => {
            let (drawn, end) = short_number(rest, 0)?;
            let rest = skip_word(&rest[end..], b"\n")?;
            Some((Event::Draw(drawn), rest))
        }
        LineWord::Send => {
            let (message, rest) = scan_short_message(rest)?;
            Some((Event::Sent(Load::Msg(message)), rest))
        }
        LineWord::Recv => {
            let (message, rest) = scan_short_message(rest)?;
            Some((Event::Got(Load::Msg(message)), rest))
        }
        LineWord::End => None,
    }
}

/// The message of short numbers that the text begins with, to its line's end, and what follows it.
#[inline(always)]
fn scan_short_message(text: &[u8]) -> Option<(Msg, &[u8])>
    requires { MESSAGE_ROOM ≤ length text.now }
    ensures message { IfSome result (λ found. message_at text.now ≡ Some (found.0, found.1.now)) }
    ensures in_range { IfSome result (λ found. is_msg found.0 ≡ true) }
{
    let (round, end) = short_number(text, 0)?;
    if text[end] != b' ' {
        return None;
    }
    let (id, end) = short_number(text, end + 1)?;
    if text[end] != b' ' {
        return None;
    }
    let (hop, end) = short_number(text, end + 1)?;
    let (dirty, rest) = scan_bit(&text[end..])?;
    let message = Msg {
        round,
        id,
        hop,
        dirty,
    };
    Some((message, rest))
}

/// The short number that stands there, and where it ends.
#[inline(always)]
fn short_number(text: &[u8], start: usize) -> Option<(u32, usize)>
    requires { start + NUMBER_ROOM ≤ length text.now }
    ensures number { IfSome result
        (λ found. kept_at (drop start text.now) ≡ Some (found.0, drop found.1 text.now)) }
    ensures in_range { IfSome result (λ found. is_number found.0 ≡ true) }
    ensures end { IfSome result (λ found. found.1 < start + NUMBER_ROOM) }
{
    let first @ b'1'..=b'9' = text[start] else {
        return None;
    };
    let mut value = u32::from(first - b'0');
    for i in 1..NUMBER_ROOM {
        let Some(digit) = to_digit(text[start + i]) else {
            return Some((value, start + i));
        };
        value = 10 * value + digit;
    }
    None
}
