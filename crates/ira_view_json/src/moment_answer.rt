ghost use Rattle.std.specs.Prelude.{◌≡◌, [], IfOk, option_map};
ghost use Rattle.ira_view_json.specs.View.{view};
ghost use Rattle.ira_view_json.specs.Object.{Puts};
ghost use Rattle.ira_view_json.specs.ShownAnswer.{IsYes, WroteRing, with_moment, with_named, with_totals};
ghost use Rattle.ira_view_moment.specs.ChosenMoment.{cut_of, numbers_of};
ghost use Rattle.ira_view_moment.specs.Moment.{IsMoment, LeadsAt, whole_cut};
ghost use Rattle.ira_view_moment.specs.Those.{AreThosePlaces};
ghost use Rattle.ira_view_moment.specs.Told.{told_of};

use crate::line::write_line;
use crate::object::Object;
use crate::shown_answer::ShownAnswer;
use crate::to_value::list_value;
use crate::value::Value;
use ira_event::{Logs, OutOfMemory, Sink};
use ira_view_moment::{ChosenMoment, Moment};
use ira_view_page::ShowFault;
use std::alloc::{AllocError, Allocator};

/// The places that lead, in their order.
fn leaders<A: Allocator>(alloc: A, moment: &Moment<A>) -> Result<Vec<u8, A>, AllocError>
    ensures { IfOk result (λ leaders. AreThosePlaces (LeadsAt moment.now) leaders.items) }
{
    let mut leaders = Vec::new(alloc);
    for place in 0..moment.size() {
        if moment.leads(place) {
            leaders.push(place)?;
        }
    }
    Ok(leaders)
}

impl<A: Allocator + Clone> Object<A> {
    /// Puts what all events of logs come to, at whose end the ring is this, and these places lead.
    fn totals(&mut self, end: &Moment<A>, leaders: &[u8])
        ensures { Puts (with_totals end.now leaders.now) self.old self.new }
    {
        let totals = end.totals();
        self.number("events", totals.events as u64);
        self.number("sent", totals.sent as u64);
        self.number("received", totals.received as u64);
        self.value("leaders", list_value(self.alloc(), leaders));
        self.over(!leaders.is_empty());
    }

    /// Puts the places that are to lead, where some are named.
    fn named(&mut self, named: Option<&[u64]>)
        ensures { Puts (with_named (option_map (λ named. named.now) named.entry)) self.old self.new }
    {
        if let Some(named) = named {
            self.value("named", list_value(self.alloc(), named));
        }
    }

    /// Puts which moment is told; nothing at the end of the logs.
    fn moment(&mut self, chosen: &ChosenMoment<A>)
        ensures { Puts (with_moment (told_of chosen.now) (numbers_of chosen.now)) self.old self.new }
    {
        match chosen {
            ChosenMoment::AtEnd => {}
            ChosenMoment::AtCut(cut) => self.value("cut", list_value(self.alloc(), cut)),
            ChosenMoment::OfCase { number, cut, .. } => {
                self.number("case", *number as u64);
                self.value("cut", list_value(self.alloc(), cut));
            }
            ChosenMoment::Unmet(_) => self.null("cut"),
        }
    }
}

/// The answer for logs, at whose end the ring is this.
pub(crate) fn shown_value<A: Allocator + Clone>(
    alloc: &A,
    logs: &Logs<A>,
    end: &Moment<A>,
    chosen: &ChosenMoment<A>,
    answer: ShownAnswer<'_>,
) -> Result<Value<A>, OutOfMemory>
    requires { IsMoment logs.now (whole_cut logs.now) end.now }
    ensures { IfOk result (λ value. IsYes logs.now (option_map (λ named. named.now) answer.entry.named)
        answer.entry.status (told_of chosen.now) (numbers_of chosen.now) (view value)) }
{
    let leaders = leaders(alloc.clone()?, end)?;
    let mut object = Object::of(alloc.clone()?, "answer");
    object.number("version", 1);
    object.number("nodes", logs.size().get() as u64);
    object.totals(end, &leaders);
    object.named(answer.named);
    object.moment(chosen);
    object.number("status", answer.status as u64);
    object.words("answer", "yes");
    object.finish()
}

/// Writes the answer for good logs, at whose end the ring is this: what all their events come to, and which moment of them
/// is told.
pub(crate) fn write_answer<A: Allocator + Clone, W: Sink>(
    alloc: A,
    logs: &Logs<A>,
    end: &Moment<A>,
    chosen: &ChosenMoment<A>,
    answer: ShownAnswer<'_>,
    sink: &mut W,
) -> Result<(), ShowFault>
    requires { IsMoment logs.now (whole_cut logs.now) end.now }
    ensures { WroteRing logs.now (option_map (λ named. named.now) answer.entry.named) answer.entry.status
        (told_of chosen.now) (cut_of logs.now chosen.now) (λ others. others ≡ []) result
        (W.state sink.old) (W.state sink.new) }
{
    let value = shown_value(&alloc, logs, end, chosen, answer)?;
    write_line(alloc, &value, sink)
}
