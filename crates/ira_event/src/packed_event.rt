ghost use Rattle.std.specs.Prelude.{◌≡◌, ◌<◌, ◌/◌, ◌↔◌, true, IsTrue};
ghost use Rattle.ira_event.specs.Event.{is_event, is_load, is_msg};
ghost use Rattle.ira_event.specs.Messages.{sending, receipt};
ghost use Rattle.ira_event.specs.PackedEvent.{load_word, message_word, load_in, message_in};

use crate::event::Event;
use crate::load::Load;
use crate::msg::Msg;
use std::marker::Model;

const DRAW: u64 = 0;

const SENT: u64 = 1;

const GOT: u64 = 2;

/// A yield is what no draw is, whose ID is at least 1. So one bit tells a receipt from all else.
const YIELD: u64 = DRAW;

/// The bits of dirt, round and ID hold so many values; all are 0 in a reset, and in no message, whose
/// round is at least 1.
const MESSAGES: u64 = 2 * NUMBERS * NUMBERS;

/// How many numbers 20 bits tell apart: more than a record's numbers are.
const NUMBERS: u64 = 1_048_576;

/// An event whose numbers a record may hold, in eight bytes: from the lowest bit on two bits for its
/// kind, one for a message's dirt, and 20 for each of its numbers; a reset has its hop alone. Contracts see it as the event.
#[derive(Drop)]
pub(crate) struct PackedEvent {
    word: u64,
}

impl Model for PackedEvent {
    ghost use Rattle.ira_event.specs.declared.event.Event.{Event};
    ghost use Rattle.ira_event.specs.PackedEvent.{unpacked};

    ghost Value = { Event };

    ghost view = { λ p. unpacked p.word };
}

impl PackedEvent {
    #[inline(always)]
    pub(crate) fn new(event: Event) -> PackedEvent
        requires { is_event event ≡ true }
        ensures { result ≡ event }
    {
        let word = match event {
            Event::Draw(id) => DRAW + 8 * u64::from(id),
            Event::Sent(load) => pack(SENT, load),
            Event::Got(load) => pack(GOT, load),
            Event::Yield => YIELD,
        };
        PackedEvent { word }
    }

    #[inline(always)]
    pub(crate) fn get(&self) -> Event
        ensures { result ≡ self.now }
    {
        let word = self.word;
        match word % 4 {
            DRAW => match (word / 8 % NUMBERS) as u32 {
                0 => Event::Yield,
                id => Event::Draw(id),
            },
            SENT => Event::Sent(unpack(word)),
            _ => Event::Got(unpack(word)),
        }
    }

    /// The load that the event sends, as it stands in the word.
    #[inline(always)]
    pub(crate) fn sending(&self) -> Option<PackedLoad>
        ensures { result ≡ sending self.now }
    {
        match self.word % 4 {
            SENT => Some(PackedLoad { word: self.word }),
            _ => None,
        }
    }

    /// The load that the event receives, as it stands in the word.
    #[inline(always)]
    pub(crate) fn receipt(&self) -> Option<PackedLoad>
        ensures { result ≡ receipt self.now }
    {
        match self.word % 4 {
            DRAW | SENT => None,
            _ => Some(PackedLoad { word: self.word }),
        }
    }
}

/// A load whose numbers a record may hold, in the word of an event. Contracts see it as the load.
#[derive(Drop)]
pub struct PackedLoad {
    word: u64,
}

impl Model for PackedLoad {
    ghost use Rattle.ira_event.specs.declared.load.Load.{Load};
    ghost use Rattle.ira_event.specs.PackedEvent.{load_in};

    ghost Value = { Load };

    ghost view = { λ p. load_in p.word };
}

impl PackedLoad {
    #[inline(always)]
    pub(crate) fn new(load: Load) -> PackedLoad
        requires { is_load load ≡ true }
        ensures { result ≡ load }
    {
        PackedLoad {
            word: pack(SENT, load),
        }
    }

    /// Whether both are one load. Whether it was sent or received doesn't matter.
    #[inline(always)]
    pub fn is(&self, other: &PackedLoad) -> bool
        ensures { IsTrue result ↔ (self.now ≡ other.now) }
    {
        self.word / 4 == other.word / 4
    }
}

/// The word of a load that was sent or received.
#[inline(always)]
fn pack(kind: u64, load: Load) -> u64
    requires kind { kind < 4 }
    requires load { is_load load ≡ true }
    ensures { result ≡ load_word kind load }
{
    match load {
        Load::Msg(message) => pack_message(kind, message),
        Load::Reset(hop) => kind + 4 * (2 * (NUMBERS * (NUMBERS * u64::from(hop)))),
    }
}

/// The word of a message that was sent or received.
#[inline(always)]
fn pack_message(kind: u64, message: Msg) -> u64
    requires kind { kind < 4 }
    requires message { is_msg message ≡ true }
    ensures { result ≡ message_word kind message }
{
    let dirt = u64::from(message.dirty);
    let round = u64::from(message.round);
    let id = u64::from(message.id);
    let hop = u64::from(message.hop);
    kind + 4 * (dirt + 2 * (round + NUMBERS * (id + NUMBERS * hop)))
}

/// The load in a word.
#[inline(always)]
fn unpack(word: u64) -> Load
    ensures { result ≡ load_in word }
{
    if word / 4 % MESSAGES == 0 {
        return unpack_reset(word);
    }
    Load::Msg(unpack_message(word))
}

/// The reset in a word.
#[cold]
#[inline(never)]
fn unpack_reset(word: u64) -> Load
    ensures { result ≡ Load.Reset (word / 8 / 1048576 / 1048576) }
{
    Load::Reset((word / 8 / NUMBERS / NUMBERS) as u32)
}

/// The message in a word.
#[inline(always)]
fn unpack_message(word: u64) -> Msg
    ensures { result ≡ message_in word }
{
    Msg {
        round: (word / 8 % NUMBERS) as u32,
        id: (word / 8 / NUMBERS % NUMBERS) as u32,
        hop: (word / 8 / NUMBERS / NUMBERS) as u32,
        dirty: word / 4 % 2 == 1,
    }
}

const _: () = prove!(size_of::<PackedEvent>() == 8);
