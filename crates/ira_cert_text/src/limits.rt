use ira_event::MAX_NODES;

/// The most sections that a certificate's text has: one for each pair of `MAX_NODES` nodes.
pub const MAX_SECTIONS: usize = MAX_NODES * (MAX_NODES - 1) / 2;

/// The most steps that a section has in a certificate's text.
pub const MAX_STEPS: usize = 1_000_000;
