//! For tests: logs and questions that several of them judge, and gates, at which two threads meet or which count
//! passes.
#![tactic(auto)]

mod events;
mod lone_ring;
mod meeting;
mod passes;
mod worked;

pub use events::{clean, dirty, loser, next_leader, winner, yielder};
pub use lone_ring::{bytes_of, lone_initiator_logs, lone_initiator_texts};
pub use meeting::{Meeting, TURN, comes_to};
pub use passes::Passes;
pub use worked::{
    ACTIVE_AND_PASSIVE, BOTH_LEAD, BOTH_LEAD_OF_THREE, CHOOSING_AND_PASSIVE, CIRCLE, CUT_1,
    ELECTION, ELECTION_0, ELECTION_1, EMPTY, EMPTY_0, EMPTY_1, EQUAL_PAIR_PASSED_ON_CLEAN,
    EXCHANGED_0, FIVE_ASKED, FIVE_STEPS, HEAD_0, LEADER, LEADER_AND_ACTIVE, LEADER_AND_OTHER,
    LEADER_AND_UNBEATEN, LONE_INITIATOR, NODE_1_SPENT, NODE_1_SPENT_OF_THREE, NOT_BEFORE, ONE_STEP,
    PLACE_2, RECEIPT_WITHOUT_SENDING, RECEIPTS_EXCHANGED, SECOND_TERM, STEPS_SWAPPED, THREE_ASKED,
    THREE_STEPS, TIE, TWO_CASES, TWO_SECTIONS, TWO_STEPS, first_case, five_steps, logs_of, step,
    three_steps, two_steps,
};
