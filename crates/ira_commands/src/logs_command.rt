ghost use Rattle.std.specs.Prelude.{◌≡◌};
ghost use Rattle.ira_commands.specs.LogsCommand.{needs_texts};

use crate::expected::Expected;
use crate::ring_form::RingForm;
use crate::ring_moment::RingMoment;
use ira_view::Form;

/// What is asked of the logs of a ring.
#[derive(Clone, Copy)]
pub enum LogsCommand<'v> {
    /// Their answer.
    Answer {
        form: Form,
    },
    /// The same, and after a yes whether their election is as expected.
    Expect {
        form: Form,
        expected: Expected<'v>,
    },
    /// Their answer, and why it is so.
    Explain {
        form: Form,
    },
    /// The same, and after a yes whether their election is as expected.
    ExplainExpected {
        form: Form,
        expected: Expected<'v>,
    },
    /// What is found for a question about them, for each case or in one line, and its certificate where that is wanted.
    Decide {
        form: Form,
        is_brief: bool,
        certify: bool,
    },
    /// What is found, and why it is so: for the case of a number, counted from 0, or for the first ones.
    ExplainQuestion {
        form: Form,
        case: Option<u64>,
    },
    /// The answer of them, of a question and of a certificate.
    Check {
        form: Form,
    },
    /// The same, and why it is so.
    ExplainCheck {
        form: Form,
    },
    /// Their ring at a moment.
    Show(RingForm<'v>, RingMoment<'v>),
}

impl LogsCommand<'_> {
    /// Whether it tells of the logs with their texts and the names of their files.
    pub fn needs_texts(&self) -> bool
        ensures { result ≡ needs_texts self.now }
    {
        match *self {
            LogsCommand::Explain { .. }
            | LogsCommand::ExplainExpected { .. }
            | LogsCommand::ExplainQuestion { .. }
            | LogsCommand::ExplainCheck { .. } => true,
            LogsCommand::Answer { .. }
            | LogsCommand::Expect { .. }
            | LogsCommand::Decide { .. }
            | LogsCommand::Check { .. } => false,
            LogsCommand::Show(form, moment) => form.needs_files(&moment),
        }
    }
}
