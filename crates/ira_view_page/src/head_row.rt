use std::alloc::Allocator;

/// What a log's head says of the ring, as a row of a table.
#[derive(Drop)]
pub struct HeadRow<A: Allocator> {
    /// The number of the log, counted from 0.
    pub log: usize,
    /// The name of its file.
    pub file: String<A>,
    pub version: u8,
    pub nodes: u8,
    pub place: u8,
}
