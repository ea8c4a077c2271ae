ghost use Rattle.std.specs.Prelude.{◌≡◌, ◌++◌, IfOk, OnOk};
ghost use Rattle.json.specs.Json.{array, object, string};
ghost use Rattle.json.specs.Tree.{items_tokens, json_tokens, members_tokens};
ghost use Rattle.ira_view_json.specs.View.{items_view, members_view, view};

use ira_event::OutOfMemory;
use json::Writer;
use std::alloc::{AllocError, Allocator};

/// A value of JSON, put together before it is written.
#[derive(Drop)]
pub(crate) enum Value<A: Allocator> {
    Null,
    Bool(bool),
    Number(u64),
    Words(&'static str),
    Text(String<A>),
    Array(Vec<Value<A>, A>),
    /// In the order of the keys, each once.
    Object(Vec<(&'static str, Value<A>), A>),
}

impl<A: Allocator + Clone> Value<A> {
    /// A copy of a text.
    pub(crate) fn copied(alloc: &A, text: &str) -> Result<Value<A>, OutOfMemory>
        ensures { IfOk result (λ value. view value ≡ string text.now) }
    {
        Ok(Value::Text(String::from_str(alloc.clone()?, text)?))
    }
}

impl<A: Allocator> Value<A> {
    /// Writes it without spaces.
    #[cycle(write)]
    pub(crate) fn write(&self, writer: &mut Writer<A>) -> Result<(), AllocError>
        ensures tokens { OnOk result (writer.new.tokens ≡ writer.old.tokens ++ json_tokens (view self.now)) }
        ensures before { writer.new.before ≡ writer.old.before }
    {
        match self {
            Value::Null => writer.null(),
            Value::Bool(is) => writer.boolean(*is),
            Value::Number(number) => writer.u64(*number),
            Value::Words(words) => writer.string(words),
            Value::Text(text) => writer.string(text.as_str()),
            Value::Array(items) => write_items(items, writer),
            Value::Object(members) => write_members(members, writer),
        }
    }
}

#[cycle(write)]
fn write_items<A: Allocator>(items: &[Value<A>], writer: &mut Writer<A>) -> Result<(), AllocError>
    ensures tokens { OnOk result (writer.new.tokens
        ≡ writer.old.tokens ++ json_tokens (array (items_view items.now))) }
    ensures before { writer.new.before ≡ writer.old.before }
{
    writer.begin_array()?;
    for item in items {
        item.write(writer)?;
    }
    writer.end_array()
}

#[cycle(write)]
fn write_members<A: Allocator>(
    members: &[(&'static str, Value<A>)],
    writer: &mut Writer<A>,
) -> Result<(), AllocError>
    ensures tokens { OnOk result (writer.new.tokens
        ≡ writer.old.tokens ++ json_tokens (object (members_view members.now))) }
    ensures before { writer.new.before ≡ writer.old.before }
{
    writer.begin_object()?;
    for member in members {
        writer.key(member.0)?;
        member.1.write(writer)?;
    }
    writer.end_object()
}
