//! Lines of a page to move in: what it draws from, and what it says besides.

ghost use Rattle.std.specs.Prelude.{IfOk, option_map, string_bytes};
ghost use Rattle.ira_order.specs.Matching.{Matches};
ghost use Rattle.ira_order.specs.Run.{AreLocalRuns};
ghost use Rattle.ira_view_json.specs.Line.{IsLineOf};
ghost use Rattle.ira_view_json.specs.PageLine.{IsYesLine, explanation_value};
ghost use Rattle.ira_view_moment.specs.ChosenMoment.{numbers_of};
ghost use Rattle.ira_view_moment.specs.Told.{told_of};

use crate::line::line_of;
use crate::moment_answer::shown_value;
use crate::object::Object;
use crate::shown_answer::ShownAnswer;
use ira_event::{Logs, OutOfMemory};
use ira_view_moment::{ChosenMoment, Moment};
use std::alloc::Allocator;

/// The line of a yes: what all events of good logs come to, and which moment of them is told.
pub fn yes_line<A: Allocator + Clone>(
    alloc: A,
    logs: &Logs<A>,
    chosen: &ChosenMoment<A>,
    answer: ShownAnswer<'_>,
) -> Result<String<A>, OutOfMemory>
    requires matches { Matches logs.now }
    requires local { AreLocalRuns logs.now }
    ensures { IfOk result (λ text. IsYesLine logs.now (option_map (λ named. named.now) answer.entry.named)
        answer.entry.status (told_of chosen.now) (numbers_of chosen.now) (string_bytes text)) }
{
    let end = Moment::at_end(alloc.clone()?, logs)?;
    let value = shown_value(&alloc, logs, &end, chosen, answer)?;
    line_of(alloc, &value)
}

/// The line of what a person reads of an answer.
pub fn explanation_line<A: Allocator + Clone>(
    alloc: A,
    page: &str,
) -> Result<String<A>, OutOfMemory>
    ensures { IfOk result (λ text. IsLineOf (explanation_value page.now) (string_bytes text)) }
{
    let mut object = Object::of(alloc, "explanation");
    object.text("page", page);
    object.into_line()
}
