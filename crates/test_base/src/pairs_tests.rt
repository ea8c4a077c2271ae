//! The question whether ever two nodes lead at once.

use crate::question_samples::{ACTIVE, LEADER, PAIRS_OF_THREE, is_read, is_written_as};
use crate::samples::free;
use ira_event::RingSize;
use ira_pred::pairs_question;

#[test]
fn pairs_of_three(rt: HostRuntime) {
    let nodes = RingSize::new(3).expect(&rt, "a ring of three");
    let question = pairs_question(rt.alloc(), nodes).expect(&rt, "memory");
    let last = &question.cases()[2];
    let first = last.clause(0);
    let asked = (
        last.len(),
        last.place(1),
        first.holds(&free(LEADER)),
        first.holds(&free(ACTIVE)),
    );
    let is_text = is_written_as(rt.alloc(), &question, PAIRS_OF_THREE)
        && is_read(rt.alloc(), PAIRS_OF_THREE)
        && PAIRS_OF_THREE.len() == 95;
    assert!(rt; is_text && asked == (2, 2, true, false));
}

#[test]
fn pairs_of_the_largest_ring(rt: HostRuntime) {
    let nodes = RingSize::new(255).expect(&rt, "a ring of 255");
    let question = pairs_question(rt.alloc(), nodes).expect(&rt, "memory");
    let asked = (question.nodes().get(), question.cases().len());
    assert!(rt; asked == (255, 32_385));
}
