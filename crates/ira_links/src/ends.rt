// The two ends of a link together: when it is made, and when it is settled.
ghost use Rattle.std.specs.Prelude.{◌≡◌, ◌<◌, ◌≤◌, [], length, IfOk};
ghost use mathlib.Core.List.{IsPrefix};
ghost use Rattle.ira_links.specs.Limits.{MAX_CAPACITY};

use crate::frame::Frame;
use crate::link_in::LinkIn;
use crate::link_out::LinkOut;
use crate::rule::{Ends, FirstInFirstOut, Known, Remainder};
use crate::settled::Settled;
use crossbeam_channel::bounded_with;
use ira_event::OutOfMemory;
use std::alloc::Allocator;

/// The two ends of a new link, which holds at most so many frames at once.
pub fn link<A: Allocator + Clone>(
    alloc: A,
    capacity: u32,
) -> Result<(LinkOut<A>, LinkIn<A>), OutOfMemory>
    requires { (1 ≤ capacity) × (capacity ≤ MAX_CAPACITY) }
    ensures same { IfOk result (λ ends. ends.0.link ≡ ends.1.link) }
    ensures empty { IfOk result (λ ends. (ends.0.frames ≡ []) × (ends.1.frames ≡ [])) }
{
    let (sender, receiver, mut pass) = bounded_with::<Frame, Known, FirstInFirstOut, A>(
        alloc,
        capacity as usize,
    )?;
    let reader = sender.another::<Ends>(&mut pass);
    let output = LinkOut {
        sender,
        pass,
        puts: 0,
    };
    let input = LinkIn {
        receiver,
        pass: reader,
        takes: 0,
    };
    Ok((output, input))
}

/// Ends the use of a link. What is left on it is dropped.
pub fn settle<A: Allocator>(output: LinkOut<A>, input: LinkIn<A>) -> Settled
    requires { output.link ≡ input.link }
    ensures prefix { IsPrefix input.frames output.frames }
    ensures puts { result.puts ≡ length output.frames }
    ensures takes { result.takes ≡ length input.frames }
{
    let LinkOut {
        sender,
        mut pass,
        puts,
    } = output;
    let LinkIn {
        receiver: _,
        pass: reader,
        takes,
    } = input;
    sender.absorb::<Ends>(&mut pass, reader);
    sender.learn_as::<Remainder>(&mut pass);
    Settled { puts, takes }
}
