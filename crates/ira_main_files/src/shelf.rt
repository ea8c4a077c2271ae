ghost use Rattle.std.specs.Prelude.{◌≡◌, ℕ, List, [], Option, Some, Result, IfErr, IfOk, IfSome};
ghost use Rattle.ira_main_files.specs.Shelf.{File};
ghost use Rattle.ira_main_files.specs.declared.shelf_fault.ShelfFault.{ShelfFault};

use crate::shelf_fault::ShelfFault;
use crate::text_source::TextSource;
use ira_event::Sink;

/// Where the program's files lie: each is read whole, or made anew. A new file takes the place of the old one of its name
/// only when all of it was written, so that nothing is lost where a write fails.
pub trait Shelf: TextSource {
    /// A file that is being written. If it is let go, nothing of it stays.
    type Out: Sink + Drop;

    /// A file that was written whole, and isn't under its name yet. If it is let go, nothing of it stays.
    type Written: Drop;

    // the files that lie on it, where it says which
    ghost files: { Self → Option (List File) };

    // what `create` does to the shelf, and what comes of it
    ghost creates: { Self → List ℕ → Result Self.Out ShelfFault → Self → Type 0 };

    // what `close` does to the shelf, and what comes of it
    ghost closes: { Self → Self.Out → Result Self.Written ShelfFault → Self → Type 0 };

    // what `keep` does to the shelf, and what comes of it
    ghost keeps: { Self → Self.Written → Result (Unit {0}) ShelfFault → Self → Type 0 };

    /// A new file of this name, which has taken nothing yet. A file of the same name stays as it is.
    fn create(&mut self, name: &str) -> Result<Self::Out, ShelfFault>
        ensures made { creates self.old name.now result self.new }
        ensures unchanged { files self.new ≡ files self.old }
        ensures fresh { IfSome (files self.new) (λ _. IfOk result (λ file. (Self.Out.state file).taken ≡ Some [])) };

    /// Ends the writing of a file: what a buffer still holds is written. Only then is it known that
    /// nothing was lost.
    fn close(&mut self, file: Self::Out) -> Result<Self::Written, ShelfFault>
        ensures closed { closes self.old file result self.new }
        ensures unchanged { files self.new ≡ files self.old };

    /// Gives a file its name, in one step: who reads that name finds the old file before it, and the new one after it.
    fn keep(&mut self, file: Self::Written) -> Result<(), ShelfFault>
        ensures kept { keeps self.old file result self.new }
        ensures unchanged { IfErr result (λ _. files self.new ≡ files self.old) };
}
