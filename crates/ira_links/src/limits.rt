/// The most frames that a link accepts, from its first to its last.
pub const MAX_FRAMES: u32 = 1_000_000;

/// The most frames that a link holds at once; the smallest capacity is 1.
pub const MAX_CAPACITY: u32 = 1_000;
