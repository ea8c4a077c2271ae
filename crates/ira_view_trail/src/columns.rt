ghost use Rattle.std.specs.Prelude.{◌≡◌, ◌⊎◌, ◌<◌, ◌≤◌, ◌^◌, ℕ, IfOk, IsTrue, Some, length, map, slice_get, sum_by};
ghost use Rattle.std.specs.Option.{ForSome, option_map};
ghost use Rattle.ira_view_trail.specs.Columns.{AreColumnsOf, AreUpTo, IsLastColumn, column_of, cut_or_all};

use crate::clock::find_columns;
use crate::columns_fault::ColumnsFault;
use crate::right::{are_links_right, are_rows};
use ira_event::{Logs, OutOfMemory};
use std::alloc::Allocator;
use std::marker::Model;

/// The column of each event of a ring's logs, for a picture: time runs to the right, and each message with it.
#[derive(Drop)]
pub struct Columns<A: Allocator> {
    /// Those of each node, event by event.
    pub nodes: Vec<Vec<u32, A>, A>,
    /// That of the line at the end of the cut, which no event has.
    pub line: u32,
}

impl<A: Allocator> Model for Columns<A> {
    ghost use Rattle.std.specs.Prelude.{map};
    ghost use Rattle.ira_view_trail.specs.Columns.{Columns};

    ghost Value = { Columns };

    ghost view = { λ c. record { nodes = map (λ row. row.items) c.nodes.items; line = c.line } };
}

/// The greatest of some columns, or a number where none is greater.
fn greatest(columns: &[u32], least: u32) -> u32
    ensures least { least ≤ result }
    ensures bound { AreUpTo result columns.now }
    ensures reached { (result ≡ least) ⊎ ((k : ℕ) × (slice_get columns.now k ≡ Some result)) }
{
    let mut greatest = least;
    for column in columns {
        greatest = greatest.max(*column);
    }
    greatest
}

/// How many events each log has.
fn all_events<L: Allocator, A: Allocator>(
    alloc: A,
    logs: &Logs<L>,
) -> Result<Vec<u32, A>, OutOfMemory>
    ensures { IfOk result (λ numbers. numbers.items ≡ map (λ log. length log.events) logs.now) }
{
    let size = logs.size().get();
    let mut numbers = Vec::with_capacity(alloc, usize::from(size))?;
    for place in 0..size {
        numbers.push(logs.log(place).len() as u32)?;
    }
    Ok(numbers)
}

/// Those that are found, where they are right.
fn columns_of_cut<A: Allocator + Clone>(
    alloc: A,
    logs: &Logs<A>,
    cut: &[u32],
    all: &[u32],
) -> Result<Columns<A>, ColumnsFault>
    requires cut { length cut.now ≡ length logs.now }
    requires all { length all.now ≡ length logs.now }
    ensures few { IfOk result (λ columns. sum_by length columns.nodes < 2 ^ 32) }
    ensures columns { IfOk result (AreColumnsOf logs.now cut.now) }
{
    let found = find_columns(alloc.clone()?, logs, cut, all)?;
    if !are_rows(logs, cut, &found) {
        return Err(ColumnsFault::Wrong);
    }
    let has_links = are_links_right(alloc, logs, &found)?;
    if !has_links {
        return Err(ColumnsFault::Wrong);
    }
    Ok(found)
}

impl<A: Allocator + Clone> Columns<A> {
    /// The columns of all events, also of logs that have no order: those that wait in a circle are right of all others.
    /// With a cut its events are left of its line, and all others right of it.
    pub fn of(alloc: A, logs: &Logs<A>, cut: Option<&[u32]>) -> Result<Columns<A>, ColumnsFault>
        requires { ForSome cut (λ c. length c.now ≡ length logs.now) }
        ensures few { IfOk result (λ columns. sum_by length columns.nodes < 2 ^ 32) }
        ensures columns { IfOk result
            (AreColumnsOf logs.now (cut_or_all logs.now (option_map (λ c. c.now) cut.entry))) }
    {
        let all = all_events(alloc.clone()?, logs)?;
        match cut {
            Some(cut) => columns_of_cut(alloc, logs, cut, &all),
            None => columns_of_cut(alloc, logs, &all, &all),
        }
    }
}

impl<A: Allocator> Columns<A> {
    /// The column of an event of the node at a place, counted from 1, or 0 where there is no such event.
    pub fn column(&self, place: u8, event: u32) -> u32
        ensures { result ≡ column_of self.now place event }
    {
        match self.nodes.get(usize::from(place)) {
            Some(columns) => columns
                .get(event.saturating_sub(1) as usize)
                .copied()
                .unwrap_or(0),
            None => 0,
        }
    }

    /// Those of the node at a place.
    pub fn row(&self, place: u8) -> &[u32]
        requires { place < length self.now.nodes }
        ensures { slice_get self.now.nodes place ≡ Some result.now }
    {
        &self.nodes[usize::from(place)]
    }

    /// The last column of all events, or 0 where there is none.
    pub fn last(&self) -> u32
        ensures { IsLastColumn self.now.nodes result }
    {
        let mut last = 0;
        for columns in &self.nodes {
            last = greatest(columns, last);
        }
        last
    }
}
