//! Sentences such as `any leader, other choosing`, and the questions that they stand for.
#![tactic(auto)]

mod asked_clauses;
mod is_clause;
mod laws;
mod limits;
mod parts;
mod picks;
mod places;
mod question;
mod sentence;
mod sentence_fault;
mod sentence_part;

pub use laws::{no_text_is_two_sentences, questions_have_texts, questions_mean_their_sentences};
pub use limits::MAX_SENTENCE;
pub use question::ask;
pub use sentence_fault::SentenceFault;
pub use sentence_part::SentencePart;
