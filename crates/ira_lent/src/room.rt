ghost use Rattle.std.specs.Prelude.{◌≡◌, ◌-◌, ◌%◌, ◌^◌, ◌<◌, ◌≤◌, MatchOption};
ghost use denote.RawPtr.{◌+ₚ◌};
ghost use types.Logic.{sem};
ghost use Rattle.ira_lent.specs.Room.{lies_free};

use std::marker::Model;

/// So many bytes, the first of them aligned to 16, in which nothing lies. Those past the last multiple of 16 count for
/// nothing.
#[derive(Drop)]
pub struct Room {
    pub(crate) start: *mut u8,
    pub(crate) size: usize,
}

impl Model for Room {
    ghost also_owns = { λ room. lies_free room.size room.start };
}

impl Room {
    /// Takes over this room. From now on nobody else has it, also after the value is let go.
    pub unsafe fn from_raw_parts(start: *mut u8, size: usize) -> Room
        requires* { sem 𝓛 (lies_free size start) }
        ensures { result.size ≡ size }
    {
        Room { start, size }
    }

    /// The first so many bytes, if there are so many, and the others.
    pub(crate) fn cut(self, size: usize) -> (Option<Room>, Room)
        requires whole { size % 16 ≡ 0 }
        requires small { size < 2 ^ 63 }
        ensures { MatchOption result.0
            ((self.size < size) × (result.1.start ≡ self.start) × (result.1.size ≡ self.size))
            (λ front. (size ≤ self.size) × (front.start ≡ self.start) × (front.size ≡ size)
            × (result.1.start ≡ self.start +ₚ size) × (result.1.size ≡ self.size - size)) }
    {
        let Room { start, size: all } = self;
        if all < size {
            return (None, Room { start, size: all });
        }
        let next = unsafe { start.add(size) };
        let rest = Room {
            start: next,
            size: all - size,
        };
        (Some(Room { start, size }), rest)
    }
}
