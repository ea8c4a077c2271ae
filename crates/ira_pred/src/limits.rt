use ira_event::MAX_NODES;

/// The most cases that a question has: one for each pair of `MAX_NODES` nodes.
pub const MAX_CASES: usize = MAX_NODES * (MAX_NODES - 1) / 2;

/// The greatest depth of a clause: how deep its parentheses are nested.
pub const MAX_DEPTH: usize = 32;
