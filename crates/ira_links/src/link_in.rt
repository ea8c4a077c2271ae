ghost use Rattle.std.specs.Prelude.{◌≡◌, ◌∷◌, ◌++◌, [], true, IfOk, OnErr};
ghost use Rattle.ira_links.specs.Frame.{is_frame};

use crate::closed::Closed;
use crate::frame::Frame;
use crate::rule::{FirstInFirstOut, Known, Takes};
use crossbeam_channel::{Pass, RuledReceiver};
use std::alloc::Allocator;
use std::marker::Model;
use std::sync::Wait;

/// The reading end of a link; seen by contracts as its link and the frames that were taken.
#[derive(Drop)]
pub struct LinkIn<A: Allocator> {
    pub(crate) receiver: RuledReceiver<Frame, Known, FirstInFirstOut, A>,
    pub(crate) pass: Pass<Frame, Known>,
    pub(crate) takes: u32,
}

impl<A: Allocator> Model for LinkIn<A> {
    ghost use Rattle.crossbeam_channel.specs.Claims.{view as view_of, IsSeatAt};
    ghost use Rattle.crossbeam_channel.specs.Ends.{receives_on};
    ghost use Rattle.ira_links.specs.Known.{IsReader};
    ghost use Rattle.ira_links.specs.LinkEnd.{LinkEnd, name_of};

    ghost Value = { LinkEnd };

    ghost view = { λ e. record { link = name_of e.pass; frames = (view_of e.pass).taken } };

    ghost invariant = { λ e. IsSeatAt (receives_on e.receiver) e.pass × IsReader e.pass e.takes };
}

impl<A: Allocator> LinkIn<A> {
    /// Takes the frame at the front of the link, and waits while there is none and the writing end
    /// is still in use.
    pub fn take<R: Wait>(&mut self, rt: &R) -> Result<Frame, Closed>
        ensures link { self.new.link ≡ self.old.link }
        ensures taken { IfOk result (λ frame. self.new.frames ≡ self.old.frames ++ frame ∷ []) }
        ensures numbers { IfOk result (λ frame. is_frame frame ≡ true) }
        ensures refused { OnErr result (self.new.frames ≡ self.old.frames) }
    {
        let Ok(frame) = self.receiver.recv_as::<Takes, R>(rt, &mut self.pass) else {
            return Err(Closed);
        };
        self.takes += 1;
        Ok(frame)
    }
}
