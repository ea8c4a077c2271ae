//! The plain checker of certificates: whether a section shows that no consistent cut meets its case, and the
//! law that makes this matter.
#![tactic(auto)]

mod asked_clause;
mod conjuncts;
mod last_count;
mod laws;
mod listed_candidates;
mod plain;
mod positions;
mod profiled;
mod profiles;
mod queue_head;
mod queues;
mod searched_log;
mod section_fault;
mod shared_table;
mod soundness;
mod unsound;
mod verdict;

pub use conjuncts::map_conjuncts;
pub use ira_cert_text::{
    CertFault, CertStep, Certificate, MAX_SECTIONS, MAX_STEPS, Section, read_cert, write_cert,
};
pub use laws::{a_section_has_one_verdict, sound_sections_leave_no_cut};
pub use listed_candidates::ListedCandidates;
pub use plain::{Candidates, case_queues, check_plain};
pub use positions::Positions;
pub use profiled::profiled_queues;
pub use profiles::Profiles;
pub use queue_head::QueueHead;
pub use queues::{candidates_left, check_queues, eliminate, left_at, make_steps};
pub use section_fault::SectionFault;
pub use unsound::Unsound;
pub use verdict::Verdict;
