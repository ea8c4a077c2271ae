//! The question of all pairs.
use ira_event::{MemorySink, RingSize};
use ira_pred::{pairs_question, write_question};
use std::alloc::Global;
use std::process::Abort;

/// The text of the question of all pairs of so many nodes.
pub fn pairs_text(rt: &(impl Abort + AllocGlobal), nodes: u8) -> MemorySink<Global> {
    let nodes = RingSize::new(nodes).expect(rt, "a ring of that size");
    let pairs = pairs_question(rt.alloc(), nodes).expect(rt, "memory");
    let mut sink = MemorySink::new(rt.alloc());
    let written = write_question(&pairs, &mut sink);
    assert!(rt; written == Ok(()));
    sink
}
