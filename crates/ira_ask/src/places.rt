ghost use Rattle.std.specs.Prelude.{◌≡◌, ◌++◌, ◌-◌, ◌≤◌, IfOk, OnOk, map};
ghost use Rattle.ira_pred.specs.Pairs.{numbers_from};
ghost use Rattle.ira_ask.specs.Choices.{choices as ways, two as pair};

use crate::picks::Picks;
use ira_event::OutOfMemory;
use std::alloc::Allocator;

/// The places of the nodes that were picked.
#[derive(Clone, Copy, Debug)]
pub(crate) struct Places {
    pub any: Option<u8>,
    pub other: Option<u8>,
}

/// All ways to pick nodes of a ring of so many, in lexicographic order.
pub(crate) fn choices<A: Allocator>(
    alloc: A,
    nodes: u8,
    picks: Picks,
) -> Result<Vec<Places, A>, OutOfMemory>
    ensures { IfOk result (λ choices. choices.items ≡ ways nodes picks) }
{
    let mut choices = Vec::new(alloc);
    match picks {
        Picks::Nobody => choices.push(Places {
            any: None,
            other: None,
        })?,
        Picks::One => {
            for i in 0..nodes {
                choices.push(Places {
                    any: Some(i),
                    other: None,
                })?;
            }
        }
        Picks::Two => {
            for i in 0..nodes {
                push_pairs(&mut choices, i, 0, i)?;
                push_pairs(&mut choices, i, i + 1, nodes)?;
            }
        }
        Picks::Alike => {
            for i in 0..nodes {
                push_pairs(&mut choices, i, i + 1, nodes)?;
            }
        }
    }
    Ok(choices)
}

/// Adds place `i` with each of the others in turn, from the first one to the last, which is left out.
fn push_pairs<A: Allocator>(
    choices: &mut Vec<Places, A>,
    i: u8,
    first: u8,
    end: u8,
) -> Result<(), OutOfMemory>
    ensures { OnOk result
        (choices.new.items ≡ choices.old.items ++ map (pair i) (numbers_from first (end - first))) }
{
    for j in first..end {
        choices.push(Places {
            any: Some(i),
            other: Some(j),
        })?;
    }
    Ok(())
}
