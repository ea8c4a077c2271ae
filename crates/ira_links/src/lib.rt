//! The links of a ring, first in first out, and the gates that its threads pass.
//!
//! A link is a bounded channel of `crossbeam_channel` under a rule. Each of its two ends has a pass, a
//! value of no bytes that carries what the end knows: the writer's what was put, the reader's what was
//! taken. The rule holds at every moment, whatever the threads do:
//!
//! - the frames put are the frames taken, followed by the frames in the queue;
//! - each number of a frame is in `1..=MAX_NUMBER`;
//! - at most `MAX_FRAMES` frames were put.
//!
//! It is changed in single atomic steps of the channel. There are seven kinds, and each is shown to
//! keep it:
//!
//! | Step | What changes in the passes |
//! |---|---|
//! | the channel is made | the writer's pass begins with nothing put |
//! | the reader's pass is split off | it begins with nothing taken |
//! | a frame is put at the end of the queue | the writer's list is longer by it |
//! | a put hands its frame back | nothing |
//! | a frame is taken from the front of the queue | the reader's list is longer by it |
//! | a take fails | nothing |
//! | the two passes are joined, to settle the link | nothing; a spent pass is excepted from the rule |
//!
//! No contract says that a put or a take returns or succeeds.
#![tactic(auto)]

mod closed;
mod ends;
mod frame;
mod gate;
mod limits;
mod link_in;
mod link_out;
mod open_gate;
mod rule;
mod settled;

pub use closed::Closed;
pub use ends::{link, settle};
pub use frame::Frame;
pub use gate::Gate;
pub use limits::{MAX_CAPACITY, MAX_FRAMES};
pub use link_in::LinkIn;
pub use link_out::LinkOut;
pub use open_gate::OpenGate;
pub use settled::Settled;
