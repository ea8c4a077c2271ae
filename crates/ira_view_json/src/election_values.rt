ghost use Rattle.std.specs.Prelude.{option_map};
ghost use Rattle.ira_view_election.specs.Election.{standing_of};
ghost use Rattle.ira_view_json.specs.ElectionValue.{due_value, with_due, with_election, with_node_due, with_over, with_standing};
ghost use Rattle.ira_view_json.specs.Object.{Puts};

use crate::object::Object;
use crate::to_value::{ToValue, list_value};
use crate::value::Value;
use ira_event::OutOfMemory;
use ira_view_election::{Due, Election, NodeDue};
use std::alloc::Allocator;

impl<A: Allocator + Clone> Object<A> {
    fn due(&mut self, due: Due)
        ensures { Puts (with_due due) self.old self.new }
    {
        match due {
            Due::Draw => self.words("next", "draw"),
            Due::Send(load) => {
                self.words("next", "send");
                self.load(load);
            }
            Due::Receive(load) => {
                self.words("next", "receive");
                self.load(load);
            }
        }
    }

    /// Puts a node, and what comes next there.
    pub(crate) fn node_due(&mut self, next: NodeDue)
        ensures { Puts (with_node_due next) self.old self.new }
    {
        self.number("node", next.node as u64);
        self.due(next.due);
    }

    /// Puts whether the election is over.
    pub(crate) fn over(&mut self, is_over: bool)
        ensures { Puts (with_over is_over) self.old self.new }
    {
        self.flag("over", is_over);
    }

    fn standing<B: Allocator>(&mut self, election: &Election<B>)
        ensures { Puts (with_standing (standing_of election.now)) self.old self.new }
    {
        match election {
            Election::Over => self.over(true),
            Election::GoesOn { next, .. } => {
                self.over(false);
                self.value("next", list_value(self.alloc(), next));
            }
        }
    }

    /// Puts how an election stands, where that is known.
    pub(crate) fn election<B: Allocator>(&mut self, election: Option<&Election<B>>)
        ensures { Puts (with_election (option_map (λ election. standing_of election.now) election.entry))
            self.old self.new }
    {
        if let Some(election) = election {
            self.standing(election);
        }
    }
}

impl ToValue for NodeDue {
    ghost json = { due_value };

    fn to_value<A: Allocator + Clone>(&self, alloc: &A) -> Result<Value<A>, OutOfMemory> {
        let mut object = Object::new(alloc.clone()?);
        object.node_due(*self);
        object.finish()
    }
}
