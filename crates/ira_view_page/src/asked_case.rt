use std::alloc::Allocator;

/// A case of a question, and what it asks.
#[derive(Drop)]
pub struct AskedCase<A: Allocator> {
    /// Its number, counted from 0.
    pub number: usize,
    pub asks: Vec<AskedNode<A>, A>,
}

/// What a case asks of a node.
#[derive(Drop)]
pub struct AskedNode<A: Allocator> {
    pub node: u8,
    /// The clause, as the question spells it.
    pub clause: String<A>,
    /// Its line in the question, counted from 1.
    pub line: usize,
}
