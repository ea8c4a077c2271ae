//! Files, readers and sinks in memory, some of them broken, and the program run over them.
ghost use Rattle.std.specs.Prelude.{◌≡◌, ◌≢◌, ◌++◌, All, IfSome, MatchOption};
ghost use Rattle.test_main.specs.MemoryFiles.{HasFirst};

use ira_event::{Sink, SinkFault};
use ira_main::serve;
use ira_main_files::{
    CountingReader, FileEntry, FileId, Shelf, ShelfFault, TextBuffer, TextSource,
};
use std::alloc::{Allocator, Global};
use std::io;
use std::io::{ErrorKind, Read};
use std::marker::Model;
use std::process::Abort;
use std::sync::Wait;
use std::thread::Threads;
use std::time::Clock;
use test_refusing::{FailingSink, Refusing};

/// The most bytes that a file takes at a time.
const PIECE: usize = 1000;

/// A file that is being written.
#[derive(Drop)]
pub(crate) struct NewFile {
    name: String,
    bytes: Vec<u8>,
    /// How many steps are made before one is refused.
    left: u64,
    failures: u64,
}

impl Sink for NewFile {
    ghost use Rattle.std.specs.Prelude.{Some};

    ghost state = { λ s. record { taken = Some s.bytes.items; failures = s.failures } };

    fn push(&mut self, bytes: &[u8]) -> Result<usize, SinkFault> {
        let taken = bytes.len().min(PIECE);
        if self.left == 0 || self.bytes.extend_from_slice(&bytes[..taken]).is_err() {
            self.failures = self.failures.saturating_add(1);
            return Err(SinkFault);
        }
        self.left -= 1;
        Ok(taken)
    }
}

/// Texts under their names, and the files that were written, each when it got its name. A file that was written
/// is read back. One of the steps by which files are written may be refused: to make one, to take a part of its text, to
/// close it, to give it its name.
#[derive(Drop)]
pub(crate) struct MemoryShelf<'a> {
    alloc: Global,
    files: &'a [(&'a str, &'a [u8])],
    written: Vec<NewFile>,
    /// How many steps are made before one is refused.
    left: u64,
    is_keep_refused: bool,
}

impl<'a> Model for MemoryShelf<'a> {
    ghost use Rattle.std.specs.Prelude.{map, string_bytes};
    ghost use Rattle.test_main.specs.MemoryFiles.{MemoryFiles};

    ghost Value = { MemoryFiles };

    ghost view = { λ s. record {
      written = map (λ f. record { name = string_bytes f.name; bytes = f.bytes.items }) s.written.items;
      given = map (λ f. record { name = f.0.now; bytes = f.1.now }) s.files.now;
    } };
}

impl<'a> MemoryShelf<'a> {
    pub(crate) fn new(alloc: Global, files: &'a [(&'a str, &'a [u8])]) -> MemoryShelf<'a> {
        MemoryShelf::refusing(alloc, files, u64::MAX)
    }

    /// A shelf that refuses the step after so many.
    pub(crate) fn refusing(
        alloc: Global,
        files: &'a [(&'a str, &'a [u8])],
        steps: u64,
    ) -> MemoryShelf<'a> {
        MemoryShelf {
            alloc,
            files,
            written: Vec::new(alloc),
            left: steps,
            is_keep_refused: false,
        }
    }

    /// Counts a step.
    fn step(&mut self) -> Result<(), ShelfFault>
        ensures { self.new ≡ self.old }
    {
        if self.left == 0 {
            return Err(ShelfFault::Device);
        }
        self.left -= 1;
        Ok(())
    }

    /// Whether each name has the file that it had, but where a file after the first didn't get its name.
    pub(crate) fn has_kept_files(&self) -> bool {
        self.written.is_empty() || self.is_keep_refused
    }

    /// The bytes of the first file of this name that was written.
    fn bytes_written(&self, name: &str) -> Option<&[u8]>
        ensures { MatchOption result (All (λ file. file.name ≢ name.now) self.now.written)
            (λ bytes. HasFirst self.now.written name.now bytes.now) }
    {
        for i in 0..self.written.len() {
            let file = &self.written[i];
            if file.name.as_str() == name {
                return Some(file.bytes.as_slice());
            }
        }
        None
    }

    /// The bytes of the first file of this name that is given.
    fn bytes_given(&self, name: &str) -> Option<&[u8]>
        ensures { IfSome result (λ bytes. HasFirst self.now.given name.now bytes.now) }
    {
        for i in 0..self.files.len() {
            let (given, text) = self.files[i];
            if given == name {
                return Some(text);
            }
        }
        None
    }

    /// The bytes of the first file of this name, of those that were written or else of those that are given.
    fn bytes_of(&self, name: &str) -> Option<&[u8]>
        ensures { IfSome result (λ bytes. HasFirst (self.now.written ++ self.now.given) name.now bytes.now) }
    {
        match self.bytes_written(name) {
            Some(bytes) => Some(bytes),
            None => self.bytes_given(name),
        }
    }

    /// Whether these files were written, in this order, and no other.
    pub(crate) fn has_written(&self, files: &[(&str, &[u8])]) -> bool {
        self.written.len() == files.len()
            && self.written.iter().zip(files).all(|(file, (name, text))| {
                file.name.as_str() == *name && file.bytes.as_slice() == *text
            })
    }

    /// Whether one file was written, a picture of this name that has these words.
    pub(crate) fn has_drawn(&self, name: &str, words: &[&str]) -> bool {
        let Some(Ok(picture)) = self.bytes_written(name).map(str::from_utf8) else {
            return false;
        };
        self.written.len() == 1
            && picture.starts_with("<svg ")
            && picture.ends_with("</svg>\n")
            && words.iter().all(|held| picture.contains(*held))
    }
}

impl TextSource for MemoryShelf<'_> {
    ghost use Rattle.std.specs.Prelude.{◌≡◌, ◌+◌, ◌++◌, ℕ, List, MatchResult, ⊤, take};
    ghost use Rattle.ira_event.specs.Limits.{MAX_TEXT};
    ghost use Rattle.test_main.specs.MemoryFiles.{HasFirst};

    // a text is that of the first file of the name, as far as it is read
    ghost reads = { record {
      text = λ s name result. MatchResult result
          (λ text. (bytes : List ℕ) × (text ≡ take (MAX_TEXT + 1) bytes) × HasFirst (s.written ++ s.given) name bytes)
          (λ _. ⊤);
      entry = λ _ _ _. ⊤;
    } };

    fn read<A: Allocator>(&self, name: &str, text: &mut TextBuffer<A>) -> Result<(), ShelfFault> {
        match self.bytes_of(name) {
            Some(bytes) => text.fill(&mut CountingReader::new(bytes)),
            None => Err(ShelfFault::NotFound),
        }
    }

    fn look_up(&self, name: &str) -> FileEntry {
        match self.files.iter().position(|(given, _)| *given == name) {
            Some(place) => FileEntry::File(FileId {
                device: 0,
                inode: place as u64,
            }),
            None => FileEntry::Missing,
        }
    }
}

impl Shelf for MemoryShelf<'_> {
    type Out = NewFile;

    type Written = NewFile;

    ghost use Rattle.std.specs.Prelude.{◌≡◌, ◌++◌, [], ◌∷◌, Some, IfOk, MatchResult, string_bytes};

    // those that were written, and those that are given with their text
    ghost files = { λ s. Some (s.written ++ s.given) };

    ghost creates = { λ old name result new. (new ≡ old)
        × IfOk result (λ file. (string_bytes file.name ≡ name) × (file.bytes.items ≡ [])) };

    ghost closes = { λ old file result new. (new ≡ old) × IfOk result (λ whole. whole ≡ file) };

    ghost keeps = { λ old file result new. (new.given ≡ old.given)
        × MatchResult result
        (λ _. new.written ≡ old.written ++ record { name = string_bytes file.name; bytes = file.bytes.items } ∷ [])
        (λ _. new.written ≡ old.written) };

    fn create(&mut self, name: &str) -> Result<NewFile, ShelfFault> {
        self.step()?;
        Ok(NewFile {
            name: String::from_str(self.alloc, name)?,
            bytes: Vec::new(self.alloc),
            left: self.left,
            failures: 0,
        })
    }

    fn close(&mut self, file: NewFile) -> Result<NewFile, ShelfFault> {
        self.left = file.left;
        self.step()?;
        Ok(file)
    }

    fn keep(&mut self, file: NewFile) -> Result<(), ShelfFault> {
        if let Err(refused) = self.step() {
            self.is_keep_refused = true;
            return Err(refused);
        }
        match self.written.push(file) {
            Ok(()) => Ok(()),
            Err(_) => Err(ShelfFault::OutOfMemory),
        }
    }
}

/// Gives its bytes, and then ends or fails.
#[derive(Drop)]
pub(crate) struct Input<'a> {
    rest: &'a [u8],
    fails: bool,
}

impl<'a> Input<'a> {
    /// An input without bytes.
    pub(crate) fn empty() -> Input<'static> {
        Input::new(&[])
    }

    /// An input that ends after these bytes.
    pub(crate) fn new(bytes: &'a [u8]) -> Input<'a> {
        Input {
            rest: bytes,
            fails: false,
        }
    }

    /// An input that gives these bytes, two at a time, and then fails.
    pub(crate) fn failing(bytes: &'a [u8]) -> Input<'a> {
        Input {
            rest: bytes,
            fails: true,
        }
    }
}

impl Read for Input<'_> {
    fn read(&mut self, buffer: &mut [u8]) -> io::Result<usize> {
        if !self.fails {
            return self.rest.read(buffer);
        }
        if self.rest.is_empty() {
            return Err(io::Error::from(ErrorKind::Other));
        }
        let n = buffer.len().min(2);
        self.rest.read(&mut buffer[..n])
    }
}

/// The memory of the program: it serves each growth until it is told to refuse one.
pub(crate) type Memory = Refusing<Global>;

/// The place of a stream's failure where it has none.
pub(crate) const NEVER: usize = usize::MAX;

/// A status, and what was written to the two streams.
#[derive(Drop)]
pub(crate) struct Output {
    pub(crate) status: u8,
    pub(crate) out: FailingSink,
    pub(crate) err: FailingSink,
}

/// Serves these words with this memory, where each stream fails once after so many bytes. All tests call the program
/// here, with the same types: what it is made of is compiled once.
pub(crate) fn served<R>(
    rt: &R,
    alloc: Memory,
    words: &[&str],
    shelf: &mut MemoryShelf<'_>,
    input: &mut CountingReader<Input<'_>>,
    [out_fails, err_fails]: [usize; 2],
) -> Output
where
    R: AllocGlobal + Threads + Wait + Clock + Sync,
{
    let mut out = FailingSink::new(rt.alloc(), out_fails);
    let mut err = FailingSink::new(rt.alloc(), err_fails);
    let status = serve(rt, alloc, words, input, shelf, &mut out, &mut err);
    Output { status, out, err }
}

/// The same with ample memory.
pub(crate) fn served_amply<R>(
    rt: &R,
    words: &[&str],
    shelf: &mut MemoryShelf<'_>,
    input: &mut CountingReader<Input<'_>>,
    fails: [usize; 2],
) -> Output
where
    R: Abort + AllocGlobal + Threads + Wait + Clock + Sync,
{
    let memory = Refusing::new(rt.alloc()).expect(rt, "memory");
    served(rt, memory, words, shelf, input, fails)
}

/// Serves these words over this input, where no file is given and none is written, and compares the status and what was
/// written to both streams.
pub(crate) fn assert_served(
    rt: &(impl Abort + AllocGlobal + Threads + Wait + Clock + Sync),
    words: &[&str],
    input: &mut CountingReader<Input<'_>>,
    status: u8,
    out: &str,
    err: &str,
) {
    let mut shelf = MemoryShelf::new(rt.alloc(), &[]);
    let found = served_amply(rt, words, &mut shelf, input, [NEVER, NEVER]);
    assert_eq!(rt; found.out.bytes(), out.as_bytes());
    assert_eq!(rt; found.err.bytes(), err.as_bytes());
    assert!(rt; found.status == status && shelf.has_written(&[]));
}
