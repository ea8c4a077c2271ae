ghost use Rattle.std.specs.Prelude.{◌≡◌, ◌<◌, IfOk, IsTrue, MatchOption, length, slice_index_or};
ghost use Rattle.std.specs.List.Sorted.{IsPermutation};
ghost use Rattle.ira_view_explain.specs.LinkHint.{IsNowhere};

use ira_event::{Load, OutOfMemory};
use std::alloc::Allocator;

/// Where a list first has this load, counted from 0.
pub(crate) fn place_of(loads: &[Load], load: Load) -> Option<usize>
    ensures { MatchOption result (IsNowhere loads.now load)
        (λ at. (at < length loads.now) × (load ≡ slice_index_or loads.now at load)) }
{
    for at in 0..loads.len() {
        if loads[at] == load {
            return Some(at);
        }
    }
    None
}

/// Whether these are the same loads in some order.
pub(crate) fn are_reordered<A: Allocator>(
    alloc: A,
    loads: &[Load],
    others: &[Load],
) -> Result<bool, OutOfMemory>
    ensures { IfOk result (λ are. IsTrue are → IsPermutation loads.now others.now) }
{
    let mut left = Vec::with_capacity(alloc, loads.len())?;
    left.extend_from_slice(loads)?;
    for i in 0..others.len() {
        let load = others[i];
        let Some(at) = place_of(&left, load) else {
            return Ok(false);
        };
        left.remove(at);
    }
    Ok(left.is_empty())
}
