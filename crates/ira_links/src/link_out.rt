ghost use Rattle.std.specs.Prelude.{◌≡◌, ◌∷◌, ◌++◌, ◌<◌, [], true, length, IfErr, OnOk, OnErr};
ghost use Rattle.ira_links.specs.Limits.{MAX_FRAMES};
ghost use Rattle.ira_links.specs.Frame.{is_frame};

use crate::frame::Frame;
use crate::limits::MAX_FRAMES;
use crate::rule::{FirstInFirstOut, Known, Puts};
use crossbeam_channel::{Pass, RuledSender};
use std::alloc::Allocator;
use std::marker::Model;
use std::sync::Wait;

/// The writing end of a link; seen by contracts as its link and the frames that were put.
#[derive(Drop)]
pub struct LinkOut<A: Allocator> {
    pub(crate) sender: RuledSender<Frame, Known, FirstInFirstOut, A>,
    pub(crate) pass: Pass<Frame, Known>,
    pub(crate) puts: u32,
}

impl<A: Allocator> Model for LinkOut<A> {
    ghost use Rattle.crossbeam_channel.specs.Claims.{view as view_of, IsSeatAt};
    ghost use Rattle.crossbeam_channel.specs.Ends.{sends_on};
    ghost use Rattle.ira_links.specs.Known.{IsWriter};
    ghost use Rattle.ira_links.specs.LinkEnd.{LinkEnd, name_of};

    ghost Value = { LinkEnd };

    ghost view = { λ e. record { link = name_of e.pass; frames = (view_of e.pass).put } };

    ghost invariant = { λ e. IsSeatAt (sends_on e.sender) e.pass × IsWriter e.pass e.puts };
}

impl<A: Allocator> LinkOut<A> {
    /// Puts a frame at the end of the link, and waits while the link is full. The frame comes back
    /// where the link has accepted `MAX_FRAMES` already, or its reading end is gone.
    pub fn put<R: Wait>(&mut self, rt: &R, frame: Frame) -> Result<(), Frame>
        requires { is_frame frame ≡ true }
        ensures link { self.new.link ≡ self.old.link }
        ensures put { OnOk result (self.new.frames ≡ self.old.frames ++ frame ∷ []) }
        ensures most { OnOk result (length self.old.frames < MAX_FRAMES) }
        ensures refused { OnErr result (self.new.frames ≡ self.old.frames) }
        ensures back { IfErr result (λ back. back ≡ frame) }
    {
        if self.puts >= MAX_FRAMES {
            return Err(frame);
        }
        match self.sender.send_as::<Puts, R>(rt, &mut self.pass, frame) {
            Ok(()) => {
                self.puts += 1;
                Ok(())
            }
            Err(refused) => Err(refused.into_inner()),
        }
    }
}
