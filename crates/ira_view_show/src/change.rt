ghost use Rattle.ira_view_show.specs.Change.{IsChange, change_text};
ghost use Rattle.ira_view_page.specs.Page.{Added};

use ira_event::Load;
use ira_node::NodeState;
use ira_view_page::Page;
use std::alloc::Allocator;

/// What an event changed of its node.
#[derive(Clone, Copy)]
pub(crate) enum Change {
    /// The phase or the term: the state after it.
    State(NodeState),
    /// What it owes from then on.
    Owes(Load),
    /// Nothing at all: a message was dropped.
    Dropped,
    /// It owes nothing any more.
    Paid,
}

impl Change {
    /// What leads from one state to the other.
    pub(crate) fn between(before: NodeState, after: NodeState) -> Change
        ensures { IsChange before after result }
    {
        if before.phase != after.phase || before.term != after.term {
            return Change::State(after);
        }
        match after.owed {
            Some(load) => Change::Owes(load),
            None if before == after => Change::Dropped,
            None => Change::Paid,
        }
    }

    /// Adds its words.
    pub(crate) fn print<A: Allocator>(&self, page: &mut Page<A>)
        ensures { Added page.old (change_text self.now) page.new }
    {
        match self {
            Change::State(state) => page.state(state),
            Change::Owes(load) => {
                page.words("owes ");
                page.load(*load);
            }
            Change::Dropped => page.words("dropped"),
            Change::Paid => {}
        }
    }
}
