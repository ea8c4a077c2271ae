use crate::remark::Remark;
use std::alloc::Allocator;

/// A line of a file, as it is quoted.
#[derive(Drop)]
pub struct QuotedLine<A: Allocator> {
    /// The name of the file.
    pub file: String<A>,
    /// The number of the line, counted from 1.
    pub number: usize,
    /// What a page shows of it.
    pub text: String<A>,
    pub carets: Option<Carets<A>>,
}

/// Carets below a line, and what stands beside them.
#[derive(Drop)]
pub struct Carets<A: Allocator> {
    /// The byte of the line below which the first one stands, counted from 1.
    pub byte: usize,
    pub remark: Remark,
    pub words: String<A>,
}
