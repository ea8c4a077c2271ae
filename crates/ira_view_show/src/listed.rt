ghost use Rattle.ira_view_show.specs.Listed.{comma_text};
ghost use Rattle.ira_view_page.specs.Page.{Added};

use ira_view_page::Page;
use std::alloc::Allocator;

/// Adds what stands before a thing of a list: a comma where it isn't the first.
pub(crate) fn add_comma<A: Allocator>(page: &mut Page<A>, is_first: bool)
    ensures { Added page.old (comma_text is_first) page.new }
{
    if !is_first {
        page.words(", ");
    }
}
