ghost use Rattle.std.specs.Prelude.{◌≡◌, ◌%◌, ◌^◌, ◌<◌, ◌≤◌, IfSome};
ghost use base.Fml.{ftrue};

use crate::room::Room;
use std::alloc::{AllocError, Allocator};
use std::cell::Cell;

/// What blocks are aligned to, and what their sizes are multiples of.
const UNIT: usize = 16;

/// Gives blocks out of a room, from its front on, until too little is left for one: that is refused. What is freed
/// isn't given out again.
#[derive(Drop)]
pub struct Lent {
    rest: Cell<Option<Room>>,
}

impl Lent {
    pub fn new(room: Room) -> Lent {
        Lent {
            rest: Cell::new(Some(room)),
        }
    }

    // The cell is empty only while this runs, and nothing that it calls comes back here.
    fn take(&self, size: usize, align: usize) -> Option<Room>
        ensures { IfSome result (λ room. (size ≤ room.size) × (room.size % 16 ≡ 0)
            × (size < 2 ^ 63) × (align ≤ 16)) }
    {
        if align > UNIT || size > isize::MAX as usize - UNIT {
            return None;
        }
        let (block, rest) = self.rest.replace(None)?.cut(size.next_multiple_of(UNIT));
        self.rest.set(Some(rest));
        block
    }
}

unsafe impl Allocator for Lent {
    ghost dealloc_token = { λ _ _ _. ftrue };

    fn allocate(&self, size: usize, align: usize) -> Result<*mut u8, AllocError> {
        match self.take(size, align) {
            Some(Room { start, size: _ }) => Ok(start),
            None => Err(AllocError),
        }
    }

    unsafe fn deallocate(&self, _ptr: *mut u8, _size: usize, _align: usize) {}
}
