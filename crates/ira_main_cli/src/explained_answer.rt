use crate::case_selection::CaseSelection;
use crate::expectation::Expectation;
use crate::log_source::LogSource;
use crate::question_source::QuestionSource;

/// An answer to explain, as the words name it.
#[derive(Drop)]
pub enum ExplainedAnswer<'a> {
    /// That of one log, on standard input.
    OneLog,
    /// That of the logs of a ring together, and after a yes whether their election is as expected.
    Logs {
        expected: Expectation<'a>,
        logs: LogSource<'a>,
    },
    /// What is found for a question, or for one case of it.
    Findings {
        asked: CaseSelection<'a>,
        logs: LogSource<'a>,
    },
    /// That of logs together with the question and the certificate that these name.
    Certificate {
        question: QuestionSource<'a>,
        certificate: &'a str,
        logs: LogSource<'a>,
    },
}
