// The rule of a link, and what the steps of its channel tell.
use crate::frame::Frame;
use crossbeam_channel::protocol::{Join, Lesson, Outcome, Protocol, Split};
use std::collections::LinkedList;

// What the holder of a pass may do (put, take), and what it has put and taken. No value of it is made.
pub struct Known {
    pub puts: bool,
    pub takes: bool,
    pub put: LinkedList<Frame>,
    pub taken: LinkedList<Frame>,
}

// What was put is what was taken and then what the queue holds.
pub struct FirstInFirstOut;

impl Protocol<Frame, Known> for FirstInFirstOut {
    ghost use Rattle.std.specs.Prelude.{true, []};
    ghost use Rattle.ira_links.specs.Known.{known};
    ghost use Rattle.ira_links.specs.Rule.{IsInOrder};

    ghost holds = { IsInOrder };

    ghost first = { known true true [] [] };
}

// The first pass, which may do both, as the writer's on the left and the reader's on the right.
pub struct Ends;

impl Split<Known> for Ends {
    ghost use Rattle.std.specs.Prelude.{[]};
    ghost use Rattle.ira_links.specs.Known.{writer, reader};

    ghost left = { λ v. writer v.put };

    ghost right = { λ v. reader v.taken };
}

impl Join<Known> for Ends {
    ghost use Rattle.std.specs.Prelude.{true, false, []};
    ghost use Rattle.ira_links.specs.Known.{known};

    ghost both = { λ v w. known true true v.put w.taken };

    ghost spent = { known false false [] [] };
}

// An accepted put.
pub struct Puts;

impl Outcome<Frame, Known> for Puts {
    ghost use Rattle.std.specs.Prelude.{◌≡◌, ◌++◌, ◌∷◌, []};

    ghost then = { λ v x w. w ≡ record v { put = v.put ++ x ∷ [] } };
}

impl Lesson<Frame, Known> for Puts {
    ghost use Rattle.std.specs.Prelude.{⊤};

    ghost fact = { λ v items. ⊤ };
}

// An accepted take.
pub struct Takes;

impl Outcome<Frame, Known> for Takes {
    ghost use Rattle.std.specs.Prelude.{◌≡◌, ◌++◌, ◌∷◌, ◌<◌, [], true, length};
    ghost use Rattle.ira_links.specs.Limits.{MAX_FRAMES};
    ghost use Rattle.ira_links.specs.Frame.{is_frame};

    ghost then = { λ v x w. (w ≡ record v { taken = v.taken ++ x ∷ [] })
        × (is_frame x ≡ true) × (length v.taken < MAX_FRAMES) };
}

impl Lesson<Frame, Known> for Takes {
    ghost use Rattle.std.specs.Prelude.{⊤};

    ghost fact = { λ v items. ⊤ };
}

// What a pass that has done both knows of the queue.
pub struct Remainder;

impl Lesson<Frame, Known> for Remainder {
    ghost use Rattle.std.specs.Prelude.{◌≡◌, ◌++◌};

    ghost fact = { λ v items. v.taken ++ items ≡ v.put };
}
