ghost use Rattle.std.specs.Prelude.{◌≡◌, ◌<◌, ◌≤◌, ◌++◌, ◌∷◌, [], IfOk, IsFalse, IsTrue, List, OnOk, length, map, ℕ};
ghost use Rattle.ira_event.specs.LogText.{log_text};
ghost use Rattle.ira_commands.specs.Output.{IsPrinted, printed_by};
ghost use Rattle.ira_commands.specs.Reply.{fault_text, file_texts, made};
ghost use Rattle.ira_web.specs.Told.{Adds, AddsReply, AreParts, Begins, HasNoRoom, Holds, IsTold};
ghost use Rattle.std.specs.List.{AllZip};

use ira_commands::{CommandFault, Files, Output, Reply};
use ira_event::{Logs, MemorySink, OutOfMemory, write_bytes, write_log};
use std::alloc::Allocator;

/// Copies all of it to the front of this room; whether that is enough.
fn copy_into<T: Copy>(all: &[T], room: &mut [T]) -> bool
    ensures fits { IsTrue result → Begins all.now room.new }
    ensures full { IsFalse result → length room.new < length all.now }
{
    if room.len() < all.len() {
        return false;
    }
    room[..all.len()].copy_from_slice(all);
    true
}

/// How many files there are.
fn count<A: Allocator>(files: &Files<A>) -> usize
    ensures number { result ≡ length (file_texts (made files.now)) }
    ensures bound { result ≤ 255 }
{
    match files {
        Files::Nothing => 0,
        Files::Text(_) | Files::Page(_) => 1,
        Files::Logs(logs) => usize::from(logs.size().get()),
        Files::Run(run) => usize::from(run.logs().size().get()),
    }
}

/// What comes of a request: of each reply, one part after another, what the program would print on standard output, what
/// on standard error, and each file that it would write.
#[derive(Drop)]
pub(crate) struct Told<A: Allocator> {
    text: MemorySink<A>,
    /// How many parts each reply has, and how many bytes each of them is.
    sizes: Vec<usize, A>,
}

impl<A: Allocator + Clone> Told<A> {
    /// Adds a part.
    fn add_text(&mut self, text: &[u8]) -> Result<(), OutOfMemory>
        ensures { OnOk result (Adds (text.now ∷ []) self.old self.new) }
    {
        let Ok(()) = write_bytes(text, &mut self.text) else {
            return Err(OutOfMemory);
        };
        Ok(self.sizes.push(text.len())?)
    }

    /// Adds what is printed on standard output.
    fn add_out(&mut self, out: &Output<A>) -> Result<(), OutOfMemory>
        ensures { OnOk result ((text : List ℕ) × IsPrinted (printed_by out.now) text × Adds (text ∷ []) self.old self.new) }
    {
        let began = self.text.bytes().len();
        let Ok(()) = out.write(&mut self.text) else {
            return Err(OutOfMemory);
        };
        Ok(self.sizes.push(self.text.bytes().len() - began)?)
    }

    /// Adds the line of a refusal; nothing where there is none.
    fn add_fault(&mut self, fault: Option<CommandFault>) -> Result<(), OutOfMemory>
        ensures { OnOk result (Adds (fault_text fault ∷ []) self.old self.new) }
    {
        let Some(fault) = fault else {
            return self.add_text(b"");
        };
        let began = self.text.bytes().len();
        let Ok(()) = fault.write(&mut self.text) else {
            return Err(OutOfMemory);
        };
        Ok(self.sizes.push(self.text.bytes().len() - began)?)
    }

    /// Adds the text of each log, in the order of the ring's places.
    fn add_logs(&mut self, logs: &Logs<A>) -> Result<(), OutOfMemory>
        ensures { OnOk result (Adds (map log_text logs.now) self.old self.new) }
    {
        for place in 0..logs.size().get() {
            let began = self.text.bytes().len();
            let Ok(()) = write_log(logs.log(place), &mut self.text) else {
                return Err(OutOfMemory);
            };
            self.sizes.push(self.text.bytes().len() - began)?;
        }
        Ok(())
    }

    /// Adds the text of each file.
    fn add_files(&mut self, files: &Files<A>) -> Result<(), OutOfMemory>
        ensures { OnOk result (Adds (file_texts (made files.now)) self.old self.new) }
    {
        match files {
            Files::Nothing => Ok(()),
            Files::Text(text) => self.add_text(text.bytes()),
            Files::Page(page) => self.add_text(page.bytes()),
            Files::Logs(logs) => self.add_logs(logs),
            Files::Run(run) => self.add_logs(run.logs()),
        }
    }

    /// Adds how many parts a reply has, and these.
    fn add(&mut self, reply: &Reply<A>) -> Result<(), OutOfMemory>
        ensures { OnOk result ((parts : List (List ℕ)) × AreParts reply.now parts × AddsReply parts self.old self.new) }
    {
        let files = reply.files();
        self.sizes.push(2 + count(files))?;
        self.add_out(reply.out())?;
        self.add_fault(reply.fault())?;
        self.add_files(files)
    }

    /// The parts of replies.
    pub(crate) fn of_replies(alloc: A, replies: &[Reply<A>]) -> Result<Told<A>, OutOfMemory>
        ensures { IfOk result (λ told. (parts : List (List (List ℕ))) × AllZip AreParts replies.now parts × Holds parts told) }
    {
        let mut told = Told {
            text: MemorySink::new(alloc.clone()?),
            sizes: Vec::new(alloc),
        };
        for reply in replies {
            told.add(reply)?;
        }
        Ok(told)
    }

    /// Writes the parts one after another into `out`, and into `lengths` how many each reply has and how many bytes each
    /// is; whether both have room.
    pub(crate) fn tell(&self, out: &mut [u8], lengths: &mut [usize]) -> bool
        ensures fits { (replies : List (List (List ℕ))) → Holds replies self.now → IsTrue result
            → IsTold replies out.new lengths.new }
        ensures full { (replies : List (List (List ℕ))) → Holds replies self.now → IsFalse result
            → HasNoRoom replies out.new lengths.new }
    {
        copy_into(&self.sizes, lengths) && copy_into(self.text.bytes(), out)
    }
}
