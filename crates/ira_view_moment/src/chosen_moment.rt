ghost use Rattle.std.specs.Prelude.{◌≡◌, option_map, slice_get};
ghost use Rattle.ira_view_moment.specs.ChosenMoment.{HasItsCase, case_of, numbers_of};

use ira_pred::{Case, Question};
use std::alloc::Allocator;

/// The moment of a ring that is looked at.
#[derive(Drop)]
pub enum ChosenMoment<A: Allocator> {
    /// The end of the logs.
    AtEnd,
    /// The one when each node has made so many of its events.
    AtCut(Vec<u32, A>),
    /// The first that meets a case of a question: when each node has made so many of its events.
    OfCase {
        question: Question<A>,
        /// The case's number in the question, counted from 0.
        number: usize,
        cut: Vec<u32, A>,
    },
    /// None: no moment meets the case of this number, or any.
    Unmet(Option<u64>),
}

impl<A: Allocator> ChosenMoment<A> {
    /// How many events each node has made by then; nothing at the end of the logs.
    pub fn cut(&self) -> Option<&[u32]>
        ensures { option_map (λ cut. cut.now) result ≡ numbers_of self.now }
    {
        match self {
            ChosenMoment::AtCut(cut) | ChosenMoment::OfCase { cut, .. } => Some(cut),
            ChosenMoment::AtEnd | ChosenMoment::Unmet(_) => None,
        }
    }

    /// The case that is met, if it is the first moment of one.
    pub fn case(&self) -> Option<&Case<A>>
        requires { HasItsCase self.now }
        ensures { option_map (λ case. case.now) result ≡ case_of self.now }
    {
        match self {
            ChosenMoment::OfCase {
                question,
                number,
                ..
            } => Some(&question.cases()[*number]),
            ChosenMoment::AtEnd | ChosenMoment::AtCut(_) | ChosenMoment::Unmet(_) => None,
        }
    }
}
