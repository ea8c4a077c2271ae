ghost use Rattle.std.specs.Prelude.{◌≡◌, ◌≤◌, ℕ, List, IfOk};
ghost use Rattle.ira_view_trail.specs.Columns.{AreColumnsOf, column_of};
ghost use Rattle.ira_view_trail.specs.Trail.{IsPlayed};

use crate::columns::Columns;
use ira_event::{Logs, OutOfMemory};
use std::alloc::Allocator;

/// The places of all events one after the other, by column and then by place. Each column looks at each node once, and
/// has an event mostly.
pub(crate) fn order_by_columns<L: Allocator, A: Allocator + Clone>(
    alloc: A,
    logs: &Logs<L>,
    columns: &Columns<A>,
) -> Result<Vec<u8, A>, OutOfMemory>
    requires { (cut : List ℕ) × AreColumnsOf logs.now cut columns.now }
    ensures { IfOk result (λ order. IsPlayed logs.now (column_of columns.now) order.items) }
{
    let size = logs.size().get();
    let mut done: Vec<u32, A> = vec![in alloc.clone()?; 0; usize::from(size)]?;
    let mut order = Vec::with_capacity(alloc, logs.number_of_events())?;
    let last = columns.last();
    'columns: for column in 0..last {
        'places: for place in 0..size {
            let node = usize::from(place);
            let event = done[node] + 1;
            if columns.column(place, event) != column + 1 {
                continue;
            }
            done[node] = event;
            order.push(place)?;
        }
    }
    Ok(order)
}
