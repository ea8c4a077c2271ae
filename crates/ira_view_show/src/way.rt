ghost use Rattle.ira_view_show.specs.Way.{link_text, listed_load, loads_text, way_text};
ghost use Rattle.ira_view_show.specs.Listed.{list_text};
ghost use Rattle.ira_view_page.specs.Numbers.{more_text};
ghost use Rattle.ira_view_page.specs.Page.{Added};

use crate::listed::add_comma;
use crate::totals::number_on_the_way;
use ira_event::Load;
use ira_order::successor;
use ira_view_moment::Moment;
use ira_view_page::{Emphasis, Page};
use std::alloc::Allocator;

/// The most loads of a link that are shown.
const SHOWN: usize = 6;

/// Adds a load, with a comma before it where it isn't the first.
fn show_load<A: Allocator>(page: &mut Page<A>, is_first: bool, load: Load)
    ensures { Added page.old (listed_load is_first load) page.new }
{
    add_comma(page, is_first);
    page.load(load);
}

/// Adds how many there are besides, where there are any.
pub(crate) fn show_more<A: Allocator>(page: &mut Page<A>, count: usize)
    ensures { Added page.old (more_text count) page.new }
{
    if count > 0 {
        page.words(" and ");
        page.number(count as u64);
        page.words(" more");
    }
}

fn show_listed<A: Allocator>(page: &mut Page<A>, loads: &[Load])
    ensures { Added page.old (list_text listed_load loads.now) page.new }
{
    for (i, load) in loads.iter().enumerate() {
        show_load(page, i == 0, *load);
    }
}

/// Adds the loads on a link, the next to be received first: at most six, and how many there are besides.
fn show_loads<A: Allocator>(page: &mut Page<A>, loads: &[Load])
    ensures { Added page.old (loads_text loads.now) page.new }
{
    let shown = loads.len().min(SHOWN);
    show_listed(page, &loads[..shown]);
    show_more(page, loads.len() - shown);
}

/// Adds the line of a link, where it holds something.
fn show_link<A: Allocator>(page: &mut Page<A>, link: u8, reader: u8, loads: &[Load])
    ensures { Added page.old (link_text link reader loads.now) page.new }
{
    if loads.is_empty() {
        return;
    }
    page.begin(Emphasis::Plain);
    page.words("link ");
    page.number(link as u64);
    page.words(", node ");
    page.number(link as u64);
    page.words(" to ");
    page.number(reader as u64);
    page.words(": ");
    show_loads(page, loads);
    page.end();
}

/// Adds what is on its way, link by link.
pub(crate) fn show_way<A: Allocator, M: Allocator>(page: &mut Page<A>, moment: &Moment<M>)
    ensures { Added page.old (way_text moment.now.links) page.new }
{
    if number_on_the_way(moment) == 0 {
        page.line(Emphasis::Plain, "No message is on its way.");
        return;
    }
    page.line(
        Emphasis::Plain,
        "On their way, the next to be received first:",
    );
    let size = moment.size();
    for link in 0..size {
        show_link(page, link, successor(size, link), moment.on_link(link));
    }
}
