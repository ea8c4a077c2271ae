use crate::class;
use crate::grid::{Grid, LEFT};
use crate::svg::Svg;
use ira_node::{NodeState, Phase};
use ira_view_page::Page;
use ira_view_picture::{After, Lane, Picture};
use std::alloc::Allocator;

/// A round and an ID, with the term where that isn't the first one.
#[derive(Clone, Copy, PartialEq, Eq)]
struct RoundId {
    term: u32,
    round: u32,
    id: u32,
}

impl RoundId {
    fn write<A: Allocator>(self, page: &mut Page<A>) {
        if self.term != 1 {
            page.number(self.term as u64);
            page.words("/");
        }
        page.number(self.round as u64);
        page.numbered(":", self.id);
    }
}

/// Under which ID a node is active.
fn active_pair(after: After) -> Option<RoundId> {
    match after {
        After::State(
            NodeState {
                phase: Phase::Active { round, id },
                term,
                ..
            },
        ) => Some(RoundId { term, round, id }),
        _ => None,
    }
}

/// Where these stand: above the lane, at node 1 of two below it, since arrows lead up there.
fn place_of_pairs(grid: &Grid, place: usize) -> u64 {
    let y = grid.y(place);
    if grid.nodes == 2 && place == 1 {
        y + 22
    } else if grid.lane_height() < 34 {
        y - 8
    } else {
        y - 12
    }
}

/// Under which ID a node is active, above a column.
fn write_pair<A: Allocator>(out: &mut Svg<A>, grid: &Grid, pair: RoundId, column: u32, y: u64) {
    out.begin_text(class::CENTRED, grid.x(column), y);
    pair.write(&mut out.page);
    out.page.words("</text>\n");
}

/// Whether the first event that is drawn is at the first column, and changes under which ID the node is active.
fn changes_at_first<A: Allocator>(grid: &Grid, lane: &Lane<A>) -> bool {
    match lane.marks.first() {
        Some(mark) if mark.column == grid.window.first => active_pair(mark.after)
            != active_pair(lane.start),
        _ => false,
    }
}

/// Under which ID a node is active, where each such time begins, or the picture where it began before.
fn write_pairs<A: Allocator>(out: &mut Svg<A>, grid: &Grid, lane: &Lane<A>, y: u64) {
    let mut before = active_pair(lane.start);
    match before {
        Some(pair) if !changes_at_first(grid, lane) => {
            write_pair(out, grid, pair, grid.window.first, y);
        }
        _ => {}
    }
    for mark in &lane.marks {
        let after = active_pair(mark.after);
        if let Some(pair) = after {
            if before != after {
                write_pair(out, grid, pair, mark.column, y);
            }
        }
        before = after;
    }
}

/// Adds what a node is in the end, in few words.
fn write_state<A: Allocator>(page: &mut Page<A>, state: &NodeState) {
    let NodeState { phase, owed, term } = *state;
    match phase {
        Phase::Leader { round, id } => {
            page.words("leads ");
            RoundId { term, round, id }.write(page);
        }
        Phase::Active { round, id } => {
            page.words("active ");
            RoundId { term, round, id }.write(page);
        }
        Phase::Choosing { .. } => page.words("choosing"),
        Phase::Passive => page.words("passive"),
        Phase::Yielding => page.words("yielding"),
    }
    if let Some(load) = owed {
        page.words(", owes ");
        page.load(load);
    }
}

/// What a node is in the end, unless it is passive and owes nothing, with its name where the picture is wide.
fn write_end<A: Allocator>(out: &mut Svg<A>, grid: &Grid, lane: &Lane<A>, place: usize) {
    let is_stopped = lane.first_fault.is_some();
    let is_passive = lane.end.phase == Phase::Passive;
    let is_quiet = is_passive && lane.end.owed.is_none() && !is_stopped;
    if is_quiet && !grid.is_wide() {
        return;
    }
    let is_aside = is_passive && !is_stopped;
    let class = if is_aside { class::ASIDE } else { "" };
    out.begin_text(class, grid.edge() + 12, grid.y(place) + 4);
    if grid.is_wide() {
        write_node(&mut out.page, place);
        out.page.words(if is_quiet { "" } else { ": " });
    }
    if is_stopped {
        out.page.words("no step");
    } else if !is_quiet {
        write_state(&mut out.page, &lane.end);
    }
    out.page.words("</text>\n");
}

/// Adds the name of a node.
fn write_node<A: Allocator>(page: &mut Page<A>, place: usize) {
    page.words("node ");
    page.number(place as u64);
}

/// The name of a node beside a lane.
fn write_name<A: Allocator>(out: &mut Svg<A>, class: &str, x: u64, y: u64, place: usize) {
    out.begin_text(class, x, y);
    write_node(&mut out.page, place);
    out.page.words("</text>\n");
}

/// The words beside the lanes.
pub(crate) fn write_labels<A: Allocator>(out: &mut Svg<A>, picture: &Picture<A>, grid: &Grid) {
    for (place, lane) in picture.lanes.iter().enumerate() {
        write_name(out, class::NAME, LEFT - 12, grid.y(place) + 4, place);
        write_pairs(out, grid, lane, place_of_pairs(grid, place));
        if picture.window.last == picture.last {
            write_end(out, grid, lane, place);
        } else if grid.is_wide() {
            write_name(
                out,
                class::ASIDE,
                grid.edge() + 12,
                grid.y(place) + 4,
                place,
            );
        }
    }
    if grid.is_unrolled() {
        let y = grid.y(usize::from(grid.nodes)) + 4;
        write_name(out, class::SECOND_NAME, LEFT - 12, y, 0);
    }
}
