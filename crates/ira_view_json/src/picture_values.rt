ghost use Rattle.std.specs.Prelude.{◌≡◌, IfOk, map, string_bytes};
ghost use Rattle.ira_pred.specs.Clause.{formula};
ghost use Rattle.ira_pred.specs.QuestionText.{clause_text};
ghost use Rattle.json.specs.Json.{array, string};
ghost use Rattle.json.specs.Value.{items_of};
ghost use Rattle.ira_view_json.specs.Line.{IsLineOf};
ghost use Rattle.ira_view_json.specs.Object.{Puts};
ghost use Rattle.ira_view_json.specs.PictureValue.{after_value, arrow_value, asked_value, band_value, kind_word, lane_value, mark_value, passage_word, picture_value, span_value, with_after, with_asked, with_column, with_fault, with_span};
ghost use Rattle.ira_view_json.specs.View.{view};
ghost use Rattle.ira_view_moment.specs.ChosenMoment.{HasItsCase};
ghost use Rattle.ira_view_moment.specs.Told.{told_of};
ghost use Rattle.ira_view_picture.specs.Picture.{drawn_of};

use crate::object::Object;
use crate::to_value::{ToValue, list_value};
use crate::value::Value;
use crate::values::state_value;
use ira_event::OutOfMemory;
use ira_pred::{Case, Clause};
use ira_replay::ReplayFault;
use ira_view_moment::ChosenMoment;
use ira_view_page::Page;
use ira_view_picture::{After, Arrow, Band, BandKind, Lane, Mark, Passage, Picture, Span};
use std::alloc::Allocator;

fn kind_word(kind: BandKind) -> &'static str
    ensures { result.now ≡ kind_word kind }
{
    match kind {
        BandKind::Unknown => "no state",
        BandKind::Passive => "passive",
        BandKind::Active => "active",
        BandKind::Choosing => "choosing",
        BandKind::Yielding => "yielding",
        BandKind::Leader => "leader",
    }
}

fn passage_word(passage: Passage) -> &'static str
    ensures { result.now ≡ passage_word passage }
{
    match passage {
        Passage::Taken => "taken",
        Passage::Dropped => "dropped",
        Passage::OnLap => "on lap",
        Passage::Differs => "differs",
        Passage::Backward => "backward",
        Passage::NotReceived => "not received",
        Passage::NotSent => "not sent",
    }
}

impl<A: Allocator + Clone> Object<A> {
    /// Puts what is known of a node: its state, or as its phase that the event has no step, or an earlier one.
    fn after(&mut self, after: After)
        ensures { Puts (with_after after) self.old self.new }
    {
        match after {
            After::State(state) => self.state(state),
            After::NoStep => self.words("phase", "no step"),
            After::Unknown => self.words("phase", "no state"),
        }
    }

    /// Puts a column, where there is one.
    fn column(&mut self, key: &'static str, column: Option<u32>)
        ensures { Puts (with_column key.now column) self.old self.new }
    {
        if let Some(column) = column {
            self.number(key, column as u64);
        }
    }

    fn span(&mut self, span: Span)
        ensures { Puts (with_span span) self.old self.new }
    {
        self.number("from", span.from as u64);
        self.column("to", span.to);
    }

    /// Puts the first event without a step, where there is one.
    fn first_fault(&mut self, fault: Option<ReplayFault>)
        ensures { Puts (with_fault fault) self.old self.new }
    {
        if let Some(ReplayFault { position, fault }) = fault {
            self.number("no_step", position as u64);
            self.words("fault", fault.words());
        }
    }

    /// Puts what the case asks whose first moment it is.
    fn asked<Q: Allocator>(&mut self, moment: &ChosenMoment<Q>)
        requires { HasItsCase moment.now }
        ensures { Puts (with_asked (told_of moment.now)) self.old self.new }
    {
        match moment {
            ChosenMoment::OfCase {
                question,
                number,
                ..
            } => self.value("asks", asked_list(self.alloc(), &question.cases()[*number])),
            ChosenMoment::AtEnd | ChosenMoment::AtCut(_) | ChosenMoment::Unmet(_) => {}
        }
    }
}

/// What is known of a node.
fn after_value<A: Allocator + Clone>(alloc: &A, after: After) -> Result<Value<A>, OutOfMemory>
    ensures { IfOk result (λ value. view value ≡ after_value after) }
{
    let mut object = Object::new(alloc.clone()?);
    object.after(after);
    object.finish()
}

impl ToValue for Mark {
    ghost json = { mark_value };

    fn to_value<A: Allocator + Clone>(&self, alloc: &A) -> Result<Value<A>, OutOfMemory> {
        let mut object = Object::new(alloc.clone()?);
        object.number("event", self.position as u64);
        object.number("column", self.column as u64);
        object.event(self.event);
        object.after(self.after);
        object.finish()
    }
}

impl ToValue for Band {
    ghost json = { band_value };

    fn to_value<A: Allocator + Clone>(&self, alloc: &A) -> Result<Value<A>, OutOfMemory> {
        let mut object = Object::new(alloc.clone()?);
        object.words("kind", kind_word(self.kind));
        object.span(self.span);
        object.finish()
    }
}

impl ToValue for Span {
    ghost json = { span_value };

    fn to_value<A: Allocator + Clone>(&self, alloc: &A) -> Result<Value<A>, OutOfMemory> {
        let mut object = Object::new(alloc.clone()?);
        object.span(*self);
        object.finish()
    }
}

impl<B: Allocator> ToValue for Lane<B> {
    ghost json = { λ lane. lane_value (drawn_of lane) };

    fn to_value<A: Allocator + Clone>(&self, alloc: &A) -> Result<Value<A>, OutOfMemory> {
        let mut object = Object::new(alloc.clone()?);
        object.number("events", self.events as u64);
        object.value("start", after_value(alloc, self.start));
        object.value("marks", list_value(alloc, &self.marks));
        object.value("bands", list_value(alloc, &self.bands));
        object.value("debts", list_value(alloc, &self.debts));
        object.value("end", state_value(alloc, self.end));
        object.first_fault(self.first_fault);
        object.finish()
    }
}

impl ToValue for Arrow {
    ghost json = { arrow_value };

    fn to_value<A: Allocator + Clone>(&self, alloc: &A) -> Result<Value<A>, OutOfMemory> {
        let mut object = Object::new(alloc.clone()?);
        object.number("link", self.link as u64);
        object.column("sent", self.sent);
        object.column("received", self.received);
        object.words("passage", passage_word(self.passage));
        object.load(self.load);
        object.finish()
    }
}

fn clause_value<A: Allocator + Clone, Q: Allocator>(
    alloc: &A,
    clause: &Clause<Q>,
) -> Result<Value<A>, OutOfMemory>
    ensures { IfOk result (λ value. view value ≡ string (clause_text (formula clause.now))) }
{
    let mut words = Page::new(alloc.clone()?);
    words.clause(clause);
    Ok(Value::Text(words.finish()?.into_string()))
}

/// What a case asks of a node.
fn asked_value<A: Allocator + Clone, Q: Allocator>(
    alloc: &A,
    place: u8,
    clause: &Clause<Q>,
) -> Result<Value<A>, OutOfMemory>
    ensures { IfOk result (λ value. view value ≡ asked_value (record { place = place; formula = formula clause.now })) }
{
    let mut object = Object::new(alloc.clone()?);
    object.number("node", place as u64);
    object.value("clause", clause_value(alloc, clause));
    object.finish()
}

fn asked_list<A: Allocator + Clone, Q: Allocator>(
    alloc: &A,
    case: &Case<Q>,
) -> Result<Value<A>, OutOfMemory>
    ensures { IfOk result (λ value. view value ≡ array (items_of (map asked_value case.now))) }
{
    let mut list = Vec::with_capacity(alloc.clone()?, case.len())?;
    for n in 0..case.len() {
        list.push(asked_value(alloc, case.place(n), case.clause(n))?)?;
    }
    Ok(Value::Array(list))
}

/// The line of a picture, whose line is at this moment, where it has one.
pub fn picture_line<A: Allocator + Clone, B: Allocator, Q: Allocator>(
    alloc: A,
    picture: &Picture<B>,
    moment: &ChosenMoment<Q>,
) -> Result<String<A>, OutOfMemory>
    requires { HasItsCase moment.now }
    ensures { IfOk result (λ text. IsLineOf (picture_value picture.now.window picture.now.last picture.now.line
        (told_of moment.now) (map drawn_of picture.now.lanes.items) picture.now.arrows.items) (string_bytes text)) }
{
    let mut object = Object::of(alloc, "picture");
    object.number("first", picture.window.first as u64);
    object.number("last", picture.window.last as u64);
    object.number("of", picture.last as u64);
    object.column("line", picture.line);
    object.asked(moment);
    object.value("lanes", list_value(object.alloc(), &picture.lanes));
    object.value("arrows", list_value(object.alloc(), &picture.arrows));
    object.into_line()
}
