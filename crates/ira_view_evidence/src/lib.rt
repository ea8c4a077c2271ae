//! What an answer rests on: of logs that were refused the events that a reader has to look at; of an absent case what
//! eliminates its states.
#![tactic(auto)]

mod absence;
mod circle_evidence;
mod elimination;
mod exchange;
mod laws;
mod link_cause;
mod link_evidence;
mod link_sides;
mod load_difference;
mod node_evidence;
mod origin;
mod reached_state;
mod ring_order;
mod stuck_at;

pub use absence::Absence;
pub use circle_evidence::CircleEvidence;
pub use elimination::Elimination;
pub use exchange::{Exchange, nth_receipt, nth_sending};
pub use laws::{some_faulty_event_is_an_origin, stuck_receipts_are_a_circle};
pub use link_cause::LinkCause;
pub use link_evidence::LinkEvidence;
pub use link_sides::LinkSides;
pub use load_difference::{FieldPair, LoadDifference, LoadField};
pub use node_evidence::NodeEvidence;
pub use origin::{Origin, origins};
pub use reached_state::state_after;
pub use ring_order::{find_ring_order, takes_from};
pub use stuck_at::StuckAt;
