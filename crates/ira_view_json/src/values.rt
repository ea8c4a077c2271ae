ghost use Rattle.std.specs.Prelude.{◌≡◌, IfOk};
ghost use Rattle.json.specs.Json.{no_members, object};
ghost use Rattle.ira_view_json.specs.Members.{natural};
ghost use Rattle.ira_view_json.specs.Object.{Puts};
ghost use Rattle.ira_view_json.specs.StateValue.{with_load, with_owed, with_phase, with_state, with_term};
ghost use Rattle.ira_view_json.specs.View.{view};

use crate::object::Object;
use crate::to_value::ToValue;
use crate::value::Value;
use ira_event::{Load, OutOfMemory};
use ira_node::{NodeState, Phase};
use std::alloc::Allocator;

impl<A: Allocator + Clone> Object<A> {
    /// Puts what is told of a load: its fields, or the hop of a reset.
    pub(crate) fn load(&mut self, load: Load)
        ensures { Puts (with_load load) self.old self.new }
    {
        match load {
            Load::Msg(message) => {
                self.number("round", message.round as u64);
                self.number("id", message.id as u64);
                self.number("hop", message.hop as u64);
                self.flag("dirty", message.dirty);
            }
            Load::Reset(hop) => self.number("reset", hop as u64),
        }
    }

    fn phase(&mut self, phase: Phase)
        ensures { Puts (with_phase phase) self.old self.new }
    {
        match phase {
            Phase::Choosing { round } => {
                self.words("phase", "choosing");
                self.number("round", round as u64);
            }
            Phase::Active { round, id } => {
                self.words("phase", "active");
                self.number("round", round as u64);
                self.number("id", id as u64);
            }
            Phase::Passive => self.words("phase", "passive"),
            Phase::Leader { round, id } => {
                self.words("phase", "leader");
                self.number("round", round as u64);
                self.number("id", id as u64);
            }
            Phase::Yielding => self.words("phase", "yielding"),
        }
    }

    fn term(&mut self, term: u32)
        ensures { Puts (with_term term) self.old self.new }
    {
        if term != 1 {
            self.number("term", term as u64);
        }
    }

    fn owed(&mut self, owed: Option<Load>)
        ensures { Puts (with_owed owed) self.old self.new }
    {
        if let Some(load) = owed {
            self.value("owes", load_value(self.alloc(), load));
        }
    }

    /// Puts a state, as far as it has a round, an ID and a debt; its term where that isn't the first one.
    pub(crate) fn state(&mut self, state: NodeState)
        ensures { Puts (with_state state) self.old self.new }
    {
        self.phase(state.phase);
        self.term(state.term);
        self.owed(state.owed);
    }
}

/// What is told of a load, as an object.
fn load_value<A: Allocator + Clone>(alloc: &A, load: Load) -> Result<Value<A>, OutOfMemory>
    ensures { IfOk result (λ value. view value ≡ object (with_load load no_members)) }
{
    let mut object = Object::new(alloc.clone()?);
    object.load(load);
    object.finish()
}

/// A state, as an object.
pub(crate) fn state_value<A: Allocator + Clone>(
    alloc: &A,
    state: NodeState,
) -> Result<Value<A>, OutOfMemory>
    ensures { IfOk result (λ value. view value ≡ object (with_state state no_members)) }
{
    let mut object = Object::new(alloc.clone()?);
    object.state(state);
    object.finish()
}

impl ToValue for u64 {
    ghost json = { natural };

    fn to_value<A: Allocator + Clone>(&self, _alloc: &A) -> Result<Value<A>, OutOfMemory> {
        Ok(Value::Number(*self))
    }
}

impl ToValue for u32 {
    ghost json = { natural };

    fn to_value<A: Allocator + Clone>(&self, alloc: &A) -> Result<Value<A>, OutOfMemory> {
        u64::from(*self).to_value(alloc)
    }
}

impl ToValue for u8 {
    ghost json = { natural };

    fn to_value<A: Allocator + Clone>(&self, alloc: &A) -> Result<Value<A>, OutOfMemory> {
        u64::from(*self).to_value(alloc)
    }
}
