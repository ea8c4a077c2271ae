ghost use Rattle.std.specs.Prelude.{◌≡◌, IfOk, map};
ghost use Rattle.json.specs.Json.{Json, array};
ghost use Rattle.json.specs.Value.{items_of};
ghost use Rattle.ira_view_json.specs.View.{view};

use crate::value::Value;
use ira_event::OutOfMemory;
use std::alloc::Allocator;

/// What is told as a value.
pub(crate) trait ToValue {
    // as JSON
    ghost json: { Self → Json };

    fn to_value<A: Allocator + Clone>(&self, alloc: &A) -> Result<Value<A>, OutOfMemory>
        ensures { IfOk result (λ value. view value ≡ json self.now) };
}

/// The list of the values of these.
pub(crate) fn list_value<A: Allocator + Clone, T: ToValue>(
    alloc: &A,
    items: &[T],
) -> Result<Value<A>, OutOfMemory>
    ensures { IfOk result (λ value. view value ≡ array (items_of (map T.json items.now))) }
{
    let mut list = Vec::with_capacity(alloc.clone()?, items.len())?;
    for item in items {
        list.push(item.to_value(alloc)?)?;
    }
    Ok(Value::Array(list))
}
