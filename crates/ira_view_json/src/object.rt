ghost use Rattle.std.specs.Prelude.{◌≡◌, IfOk, OnOk, codes, string_bytes};
ghost use Rattle.json.specs.Json.{Members, boolean, no_members, null, object};
ghost use Rattle.ira_view_json.specs.Line.{IsLineOf};
ghost use Rattle.ira_view_json.specs.Members.{put as put_value, with_number, with_words};
ghost use Rattle.ira_view_json.specs.Object.{Gives, Holds, Puts, PutsOf};
ghost use Rattle.ira_view_json.specs.View.{members_view, view};

use crate::line::line_of;
use crate::value::Value;
use ira_event::OutOfMemory;
use std::alloc::Allocator;
use std::cmp::Ordering;

/// An object that is put together member by member. It keeps whether a growth was refused, and takes nothing more after
/// that. Contracts see its members, while it is whole.
#[derive(Drop)]
pub(crate) struct Object<A: Allocator> {
    members: Vec<(&'static str, Value<A>), A>,
    is_whole: bool,
}

impl<A: Allocator> Object<A> {
    /// Without members.
    pub(crate) fn new(alloc: A) -> Object<A>
        ensures { Holds no_members result }
    {
        Object {
            members: Vec::new(alloc),
            is_whole: true,
        }
    }

    /// One of this type.
    pub(crate) fn of(alloc: A, kind: &'static str) -> Object<A>
        ensures { Holds (with_words (codes "type") kind.now no_members) result }
    {
        let mut object = Object::new(alloc);
        object.words("type", kind);
        object
    }

    /// The value that it is; an error where a growth was refused.
    pub(crate) fn finish(self) -> Result<Value<A>, OutOfMemory>
        ensures { Gives self result }
    {
        if self.is_whole {
            Ok(Value::Object(self.members))
        } else {
            Err(OutOfMemory)
        }
    }

    /// The line that it is; an error where a growth was refused.
    pub(crate) fn into_line(self) -> Result<String<A>, OutOfMemory>
    where
        A: Clone,
        ensures { (members : Members) → Holds members self
            → IfOk result (λ text. IsLineOf (object members) (string_bytes text)) }
    {
        let alloc = self.alloc().clone()?;
        line_of(alloc, &self.finish()?)
    }

    pub(crate) fn alloc(&self) -> &A {
        self.members.allocator()
    }

    /// Puts a value. Where that was refused, this object is too.
    pub(crate) fn value(&mut self, key: &'static str, value: Result<Value<A>, OutOfMemory>)
        ensures { PutsOf key.now value self.old self.new }
    {
        match value {
            Ok(value) => self.put(key, value),
            Err(_) => self.is_whole = false,
        }
    }

    /// Puts a number.
    pub(crate) fn number(&mut self, key: &'static str, number: u64)
        ensures { Puts (with_number key.now number) self.old self.new }
    {
        self.put(key, Value::Number(number));
    }

    /// Puts words.
    pub(crate) fn words(&mut self, key: &'static str, words: &'static str)
        ensures { Puts (with_words key.now words.now) self.old self.new }
    {
        self.put(key, Value::Words(words));
    }

    /// Puts a copy of a text.
    pub(crate) fn text(&mut self, key: &'static str, text: &str)
    where
        A: Clone,
        ensures { Puts (with_words key.now text.now) self.old self.new }
    {
        self.value(key, Value::copied(self.alloc(), text));
    }

    /// Puts a copy of a string.
    pub(crate) fn string<B: Allocator>(&mut self, key: &'static str, text: &String<B>)
    where
        A: Clone,
        ensures { Puts (with_words key.now (string_bytes text.now)) self.old self.new }
    {
        self.text(key, text.as_str());
    }

    /// Puts whether something is so.
    pub(crate) fn flag(&mut self, key: &'static str, is: bool)
        ensures { Puts (put_value key.now (boolean is)) self.old self.new }
    {
        self.put(key, Value::Bool(is));
    }

    /// Puts that there is nothing.
    pub(crate) fn null(&mut self, key: &'static str)
        ensures { Puts (put_value key.now null) self.old self.new }
    {
        self.put(key, Value::Null);
    }

    fn put(&mut self, key: &'static str, value: Value<A>)
        ensures { Puts (put_value key.now (view value)) self.old self.new }
    {
        if self.is_whole {
            self.is_whole = put(&mut self.members, key, value).is_ok();
        }
    }
}

/// Puts a value where its key belongs, in the place of the one that has this key already.
fn put<A: Allocator>(
    members: &mut Vec<(&'static str, Value<A>), A>,
    key: &'static str,
    value: Value<A>,
) -> Result<(), OutOfMemory>
    ensures { OnOk result (members_view members.new.items
        ≡ put_value key.now (view value) (members_view members.old.items)) }
{
    for at in 0..members.len() {
        match key.cmp(members[at].0) {
            Ordering::Less => {
                members.insert(at, (key, value))?;
                return Ok(());
            }
            Ordering::Equal => {
                members[at].1 = value;
                return Ok(());
            }
            Ordering::Greater => {}
        }
    }
    members.push((key, value))?;
    Ok(())
}
