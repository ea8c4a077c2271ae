//! Questions about a run: clauses on the state of one node, cases that ask one clause of each of some
//! nodes, and the text of a question.
#![tactic(auto)]

mod ask_fault;
mod case;
mod clause;
mod clause_reader;
mod laws;
mod limits;
mod pairs;
mod question;
mod question_head;
mod question_line;
mod question_lines;
mod question_reader;
mod question_writer;
mod rel;

pub use ask_fault::AskFault;
pub use case::Case;
pub use clause::Clause;
pub use laws::{
    a_question_text_has_one_answer, each_question_has_one_text, no_text_is_two_questions,
    texts_are_as_deep_as_clauses,
};
pub use limits::{MAX_CASES, MAX_DEPTH};
pub use pairs::pairs_question;
pub use question::Question;
pub use question_reader::read_question;
pub use question_writer::write_question;
pub use rel::Rel;
