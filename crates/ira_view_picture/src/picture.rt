ghost use Rattle.std.specs.Prelude.{◌≡◌, ◌<◌, ◌^◌, ℕ, Err, IfErr, IfOk, length, map, sum_by};
ghost use Rattle.std.specs.Option.{ForSome, option_map};
ghost use Rattle.ira_view_trail.specs.Columns.{AreColumnsOf};
ghost use Rattle.ira_view_picture.specs.Arrow.{AreArrows};
ghost use Rattle.ira_view_picture.specs.DrawFault.{HasTooManyEvents, IsDrawFault};
ghost use Rattle.ira_view_picture.specs.Picture.{AreLanes, IsShown, drawn_of};
ghost use Rattle.ira_view_picture.specs.Rows.{AreRows};
ghost use Rattle.ira_view_picture.specs.Traffic.{AreTraffic};
ghost use Rattle.ira_view_picture.specs.Window.{asked_window, events_drawn, number_drawn};

use crate::arrow::Arrow;
use crate::draw_fault::DrawFault;
use crate::lane::Lane;
use crate::links::arrows_of_ring;
use crate::traffic::Traffic;
use crate::window::Window;
use ira_event::{Logs, OutOfMemory};
use ira_view_trail::Columns;
use std::alloc::Allocator;

/// The most events of a picture.
pub const MAX_MARKS: u32 = 20_000;

/// What is drawn of logs: for each node its events at some columns with what is known after each, and the messages
/// and resets between them.
#[derive(Drop)]
pub struct Picture<A: Allocator> {
    pub window: Window,
    /// The last column of all.
    pub last: u32,
    /// The column of the line of the moment, where there is one.
    pub line: Option<u32>,
    pub lanes: Vec<Lane<A>, A>,
    pub arrows: Vec<Arrow, A>,
}

/// How many of the columns are drawn.
fn count_drawn(columns: &[u32], window: Window) -> u32
    requires { length columns.now < 2 ^ 32 }
    ensures { result ≡ number_drawn window columns.now }
{
    let mut events = 0;
    for column in columns {
        if window.contains(*column) {
            events += 1;
        }
    }
    events
}

/// How many events have columns that are drawn.
fn number_of_marks<A: Allocator>(columns: &Columns<A>, window: Window) -> u32
    requires { sum_by length columns.now.nodes < 2 ^ 32 }
    ensures { result ≡ events_drawn window columns.now.nodes }
{
    let mut events = 0;
    for node in &columns.nodes {
        events += count_drawn(node, window);
    }
    events
}

/// What is drawn of each node, and what it sends and receives.
fn nodes_of_ring<A: Allocator + Clone, L: Allocator>(
    alloc: A,
    logs: &Logs<L>,
    columns: &Columns<A>,
    window: Window,
) -> Result<(Vec<Lane<A>, A>, Vec<Traffic<A>, A>), OutOfMemory>
    requires { AreRows logs.now columns.now.nodes }
    ensures lanes { IfOk result
        (λ nodes. AreLanes logs.now columns.now.nodes window (map drawn_of nodes.0.items)) }
    ensures traffic { IfOk result (λ nodes. AreTraffic logs.now nodes.1.items) }
{
    let size = logs.size().get();
    let mut lanes = Vec::with_capacity(alloc.clone()?, usize::from(size))?;
    let mut traffic = Vec::with_capacity(alloc.clone()?, usize::from(size))?;
    for place in 0..size {
        let log = logs.log(place);
        let (lane, sent_and_got) = Lane::of(alloc.clone()?, log, columns.row(place), window)?;
        lanes.push(lane)?;
        traffic.push(sent_and_got)?;
    }
    Ok((lanes, traffic))
}

/// The column of the line of a cut, where there is one.
fn line_of<A: Allocator>(columns: &Columns<A>, cut: Option<&[u32]>) -> Option<u32>
    ensures { result ≡ option_map (λ _. columns.now.line) (option_map (λ c. c.now) cut.entry) }
{
    match cut {
        Some(_) => Some(columns.line),
        None => None,
    }
}

impl<A: Allocator> Picture<A> {
    /// Whether a leader yields, drawn or not.
    pub fn has_terms(&self) -> bool {
        self.lanes.iter().any(|lane| lane.has_terms())
    }
}

impl<A: Allocator + Clone> Picture<A> {
    /// Of logs of a ring, with a consistent cut of them where one is given; the columns `from` to `to`, all where
    /// these aren't given.
    pub fn of(
        alloc: A,
        logs: &Logs<A>,
        cut: Option<&[u32]>,
        from: Option<u64>,
        to: Option<u64>,
    ) -> Result<Picture<A>, DrawFault>
        requires { ForSome cut (λ c. length c.now ≡ length logs.now) }
        ensures window { IfOk result (λ picture. picture.window ≡ asked_window from to picture.last) }
        ensures fault { IfErr result IsDrawFault }
        ensures events { (events : ℕ) → result ≡ Err (DrawFault.TooManyEvents events)
            → HasTooManyEvents logs.now (option_map (λ c. c.now) cut.entry) from to events }
        ensures shown { IfOk result (λ picture. IsShown logs.now (option_map (λ c. c.now) cut.entry)
            picture.window picture.last picture.line (map drawn_of picture.lanes.items) picture.arrows.items) }
    {
        let columns = Columns::of(alloc.clone()?, logs, cut)?;
        let all = columns.last();
        let window = Window::clamped(from, to, all);
        let events = number_of_marks(&columns, window);
        if events > MAX_MARKS {
            return Err(DrawFault::TooManyEvents { events });
        }
        let (lanes, traffic) = nodes_of_ring(alloc.clone()?, logs, &columns, window)?;
        let arrows = arrows_of_ring(alloc, logs, &traffic, &columns, window)?;
        Ok(Picture {
            window,
            last: all,
            line: line_of(&columns, cut),
            lanes,
            arrows,
        })
    }
}
