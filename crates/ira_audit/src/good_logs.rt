ghost use Rattle.std.specs.Prelude.{◌≡◌, length};
ghost use Rattle.ira_pred.specs.QuestionText.{IsQuestionText};
ghost use Rattle.ira_audit.specs.GoodLogs.{AreGood};
ghost use Rattle.ira_audit.specs.Refusal.{IsQuestionRefusal, MatchRefusal};

use crate::asked_question::AskedQuestion;
use crate::reason::Reason;
use crate::refusal::Refusal;
use ira_event::Logs;
use ira_order::DirectDependencies;
use ira_pred::read_question;
use std::alloc::Allocator;
use std::marker::Model;

/// The logs of a ring against which there is no reason: they match and have an order, and all events have steps.
#[derive(Drop)]
pub struct GoodLogs<A: Allocator> {
    /// Where memory is taken from.
    pub(crate) alloc: A,
    pub(crate) logs: Logs<A>,
}

impl<A: Allocator> Model for GoodLogs<A> {
    ghost use Rattle.std.specs.Prelude.{List};
    ghost use Rattle.ira_event.specs.Log.{Log};
    ghost use Rattle.ira_audit.specs.GoodLogs.{AreGood};

    ghost Value = { List Log };

    ghost view = { λ g. g.logs };

    ghost invariant = { λ g. AreGood g.logs };
}

impl<A: Allocator + Clone> GoodLogs<A> {
    /// The logs.
    pub fn logs(&self) -> &Logs<A>
        ensures value { result.now ≡ self.now }
        ensures good { AreGood self.now }
    {
        &self.logs
    }

    /// The question of the text, if it is asked of this ring. Which event happened before which is found for it, once.
    pub fn ask(&self, text: &[u8]) -> Result<AskedQuestion<'_, A>, Refusal>
        ensures { MatchRefusal result
            (λ asked. (asked.logs ≡ self.now) × IsQuestionText text.now asked.question
            × (asked.question.nodes ≡ length self.now))
            (IsQuestionRefusal text.now (length self.now)) }
    {
        let question = read_question(self.alloc.clone()?, text)?;
        if question.nodes().get() != self.logs.size().get() {
            return Err(Refusal::No(Reason::QuestionSize));
        }
        let dependencies = DirectDependencies::new(self.alloc.clone()?, &self.logs)?;
        Ok(AskedQuestion {
            alloc: self.alloc.clone()?,
            question,
            dependencies,
        })
    }
}
