ghost use Rattle.std.specs.Prelude.{◌≡◌, ◌<◌, ◌≤◌, ◌+◌, ◌-◌, ◌++◌, IsTrue, IfSome, List, ℕ, codes, drop, length, take, true};
ghost use Rattle.ira_event.specs.Limits.{MAX_NUMBER};
ghost use Rattle.ira_event.specs.Event.{is_msg};
ghost use Rattle.ira_event.specs.SentLine.{IsLineOf, IsReceiptLine, IsSendingLine, passed_on};
ghost use Rattle.std.specs.Bool.{MatchBool};
ghost use Rattle.ira_event.specs.declared.msg.Msg.{Msg};
ghost use Rattle.ira_event.specs.declared.sent_line.TheConstants.{LANES, LINE_ROOM};

use crate::msg::Msg;
use std::marker::Model;
use std::simd::prelude::*;

/// As many bytes as are compared at once. No line of a message has fewer.
const LANES: usize = 16;

/// Room for the line of a message of short numbers.
const LINE_ROOM: usize = 2 * LANES;

/// A message that was sent, with its line as the log of its receiver has it. Contracts see the message.
#[derive(Drop)]
pub struct SentLine {
    /// The line, and then anything.
    room: [u8; LINE_ROOM],
    len: u8,
    message: Msg,
}

impl Model for SentLine {
    ghost use Rattle.std.specs.Prelude.{◌≡◌, ◌≤◌, true, take};
    ghost use Rattle.ira_event.specs.Event.{is_msg};
    ghost use Rattle.ira_event.specs.SentLine.{IsReceiptLine};
    ghost use Rattle.ira_event.specs.declared.msg.Msg.{Msg};

    ghost Value = { Msg };

    ghost view = { λ s. s.message };

    ghost invariant = { λ s. (16 ≤ s.len) × (s.len ≤ 32) × IsReceiptLine (take s.len s.room) s.message
        × (is_msg s.message ≡ true) };
}

impl SentLine {
    /// The message of a sending, whose line the text begins with. `None` where that isn't short, or ends the text.
    pub(crate) fn of_sending(text: &[u8], len: usize, message: Msg) -> Option<SentLine>
        requires line { IsSendingLine (take len text.now) message }
        requires in_range { is_msg message ≡ true }
        ensures { IfSome result (λ sent. sent ≡ message) }
    {
        if len < LANES || len > LINE_ROOM || text.len() < LINE_ROOM {
            return None;
        }
        let mut room = [0; LINE_ROOM];
        room.copy_from_slice(&text[..LINE_ROOM]);
        write_word(&mut room, *b"recv");
        let len = len as u8;
        Some(SentLine { room, len, message })
    }

    #[inline(always)]
    pub fn message(&self) -> Msg
        ensures value { result ≡ self.now }
        ensures in_range { is_msg result ≡ true }
    {
        self.message
    }

    /// What follows the message's receipt, where the text begins with its line. `None` tells nothing.
    #[inline(always)]
    pub(crate) fn skip_receipt<'a>(&self, text: &'a [u8]) -> Option<&'a [u8]>
        ensures line { IfSome result
            (λ rest. (line : List ℕ) × (text.now ≡ line ++ rest.now) × IsReceiptLine line self.now) }
        ensures in_range { is_msg self.now ≡ true }
    {
        let len = usize::from(self.len);
        if text.len() < LINE_ROOM || !begins_with(text, &self.room, len) {
            return None;
        }
        Some(&text[len..])
    }

    /// What follows the sending of the message passed on, where the text begins with its line; the message is then that
    /// one. `None` tells nothing, and the message may be either.
    #[inline(always)]
    pub(crate) fn skip_passed<'a>(&mut self, text: &'a [u8]) -> Option<&'a [u8]>
        requires { self.old.hop < MAX_NUMBER }
        ensures line { IfSome result
            (λ rest. (line : List ℕ) × (text.now ≡ line ++ rest.now) × IsSendingLine line (passed_on self.old)) }
        ensures passed { IfSome result (λ rest. self.new ≡ passed_on self.old) }
        ensures in_range { is_msg self.old ≡ true }
    {
        let len = usize::from(self.len);
        if text.len() < LINE_ROOM || !raise_hop(&mut self.room, len) {
            return None;
        }
        self.message.hop += 1;
        write_word(&mut self.room, *b"send");
        let is_sent = begins_with(text, &self.room, len);
        write_word(&mut self.room, *b"recv");
        if !is_sent {
            return None;
        }
        Some(&text[len..])
    }
}

/// Makes the hop in the line one greater. Where more than its last two digits change nothing does, and false is given.
#[inline(always)]
fn raise_hop(room: &mut [u8; LINE_ROOM], len: usize) -> bool
    requires least { LANES ≤ len }
    requires most { len ≤ LINE_ROOM }
    ensures { MatchBool result
        ((word : List ℕ) (m : Msg) → IsLineOf word (take len room.old) m → IsLineOf word (take len room.new) (passed_on m))
        (room.new ≡ room.old) }
{
    // After the hop stand a space, the bit's word and the line feed.
    let last = len - 8;
    let (tens, ones) = (room[last - 1], room[last]);
    if ones < b'9' {
        room[last] = ones + 1;
        return true;
    }
    if tens < b'0' || tens >= b'9' {
        return false;
    }
    room[last - 1] = tens + 1;
    room[last] = b'0';
    true
}

/// Writes another word over the line's first four letters.
#[inline(always)]
fn write_word(room: &mut [u8; LINE_ROOM], word: [u8; 4])
    ensures { room.new ≡ word ++ drop 4 room.old }
{
    room[..4].copy_from_slice(&word);
}

/// Whether the first so many bytes of both are the same. False tells nothing.
#[inline(always)]
fn begins_with(text: &[u8], line: &[u8], len: usize) -> bool
    requires text { LINE_ROOM ≤ length text.now }
    requires line { LINE_ROOM ≤ length line.now }
    requires least { LANES ≤ len }
    requires most { len ≤ LINE_ROOM }
    ensures { IsTrue result → take len text.now ≡ take len line.now }
{
    // The first bytes and the last ones, which may be some of the first.
    let start = len - LANES;
    let first = u8x16::from_slice(text).simd_ne(u8x16::from_slice(line));
    let last = u8x16::from_slice(&text[start..]).simd_ne(u8x16::from_slice(&line[start..]));
    (first | last).to_bitmask() == 0
}
