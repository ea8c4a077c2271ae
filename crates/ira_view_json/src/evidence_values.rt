ghost use Rattle.std.specs.Prelude.{◌≡◌, IfOk, codes, string_bytes};
ghost use Rattle.json.specs.Json.{string};
ghost use Rattle.ira_view_json.specs.View.{view};
ghost use Rattle.ira_view_json.specs.EvidenceValue.{evidence_value, remark_key, role_of, with_carets, with_first, with_front, with_head, with_line, with_other, with_place, with_record, with_step, with_told};
ghost use Rattle.ira_view_json.specs.Members.{with_words};
ghost use Rattle.ira_view_json.specs.Object.{Puts};
ghost use Rattle.ira_view_page.specs.Words.{event_text};

use crate::object::Object;
use crate::to_value::ToValue;
use crate::value::Value;
use ira_cert_text::CertStep;
use ira_event::{Event, OutOfMemory};
use ira_node::{NodeState, StepFault};
use ira_view_page::{
    Carets, Evidence, Front, HeadRow, Page, QuotedLine, RecordAt, Remark, line_of,
};
use std::alloc::Allocator;

fn remark_key(remark: Remark) -> &'static str
    ensures { result.now ≡ remark_key remark }
{
    match remark {
        Remark::Due => "due",
        Remark::Note => "note",
    }
}

/// What kind of thing it is that an answer rests on.
fn role_of<A: Allocator>(evidence: &Evidence<A>) -> &'static str
    ensures { result.now ≡ role_of evidence.now }
{
    match evidence {
        Evidence::Text(_) | Evidence::Line(_) => "line",
        Evidence::Head(_) => "head",
        Evidence::Sent(_) => "sent",
        Evidence::Received(_) => "received",
        Evidence::Faulty(_) => "event",
        Evidence::OtherFaulty { .. } => "other",
        Evidence::Step { .. } => "step",
        Evidence::Spent { .. } => "spent",
        Evidence::Front(_) => "front",
    }
}

impl<A: Allocator + Clone> Object<A> {
    /// Puts the record of an event, as logs spell it.
    pub(crate) fn event(&mut self, event: Event)
        ensures { Puts (with_words (codes "record") (event_text event)) self.old self.new }
    {
        self.value("record", record_value(self.alloc(), event));
    }

    fn record<B: Allocator>(&mut self, event: &RecordAt<B>)
        ensures { Puts (with_record event.now) self.old self.new }
    {
        self.number("node", event.at.place as u64);
        self.number("event", event.at.position as u64);
        self.string("file", &event.file);
        self.number("line", line_of(event.at.position) as u64);
        self.event(event.event);
    }

    fn carets<B: Allocator>(&mut self, carets: &Option<Carets<B>>)
        ensures { Puts (with_carets carets.now) self.old self.new }
    {
        if let Some(carets) = carets {
            self.number("byte", carets.byte as u64);
            self.string(remark_key(carets.remark), &carets.words);
        }
    }

    fn line<B: Allocator>(&mut self, line: &QuotedLine<B>)
        ensures { Puts (with_line line.now) self.old self.new }
    {
        self.string("file", &line.file);
        self.number("line", line.number as u64);
        self.string("text", &line.text);
        self.carets(&line.carets);
    }

    fn head<B: Allocator>(&mut self, row: &HeadRow<B>)
        ensures { Puts (with_head row.now) self.old self.new }
    {
        self.number("log", row.log as u64);
        self.string("file", &row.file);
        self.number("nodes", row.nodes as u64);
        self.number("place", row.place as u64);
        self.number("version", row.version as u64);
    }

    fn place<B: Allocator>(&mut self, file: &String<B>, line: usize, node: u8)
        ensures { Puts (with_place (string_bytes file.now) line node) self.old self.new }
    {
        self.string("file", file);
        self.number("line", line as u64);
        self.number("node", node as u64);
    }

    fn step(&mut self, step: CertStep)
        ensures { Puts (with_step step) self.old self.new }
    {
        self.number("pos", step.pos as u64);
        self.number("other", step.other as u64);
        self.number("other_pos", step.other_pos as u64);
    }

    fn first(&mut self, first: Option<(u32, NodeState)>)
        ensures { Puts (with_first first) self.old self.new }
    {
        if let Some((position, state)) = first {
            self.number("pos", position as u64);
            self.state(state);
        }
    }

    fn front(&mut self, front: Front)
        ensures { Puts (with_front front) self.old self.new }
    {
        self.number("node", front.node as u64);
        self.number("left", front.left as u64);
        self.first(front.first);
    }

    fn other<B: Allocator>(&mut self, event: &RecordAt<B>, fault: StepFault, happened_before: bool)
        ensures { Puts (with_other event.now fault happened_before) self.old self.new }
    {
        self.record(event);
        self.words("fault", fault.words());
        self.flag("happened_before", happened_before);
    }

    /// Puts what is told of a thing that an answer rests on.
    fn told<B: Allocator>(&mut self, evidence: &Evidence<B>)
        ensures { Puts (with_told evidence.now) self.old self.new }
    {
        match evidence {
            Evidence::Text(file) => self.string("file", file),
            Evidence::Line(line) => self.line(line),
            Evidence::Head(row) => self.head(row),
            Evidence::Sent(at) | Evidence::Received(at) | Evidence::Faulty(at) => self.record(at),
            Evidence::OtherFaulty {
                event,
                fault,
                happened_before,
            } => self.other(event, *fault, *happened_before),
            Evidence::Step { file, line, step } => {
                self.place(file, *line, step.node);
                self.step(*step);
            }
            Evidence::Spent { file, line, node } => self.place(file, *line, *node),
            Evidence::Front(front) => self.front(*front),
        }
    }
}

/// The record of an event, as logs spell it.
fn record_value<A: Allocator + Clone>(alloc: &A, event: Event) -> Result<Value<A>, OutOfMemory>
    ensures { IfOk result (λ value. view value ≡ string (event_text event)) }
{
    let mut record = Page::new(alloc.clone()?);
    record.event(event);
    Ok(Value::Text(record.finish()?.into_string()))
}

impl<B: Allocator> ToValue for Evidence<B> {
    ghost json = { evidence_value };

    fn to_value<A: Allocator + Clone>(&self, alloc: &A) -> Result<Value<A>, OutOfMemory> {
        let mut object = Object::new(alloc.clone()?);
        object.words("role", role_of(self));
        object.told(self);
        object.finish()
    }
}
