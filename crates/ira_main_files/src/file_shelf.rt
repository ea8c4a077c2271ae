ghost use Rattle.std.specs.Prelude.{◌≡◌};

use crate::counting_reader::CountingReader;
use crate::draft::Draft;
use crate::file_entry::{FileEntry, FileId};
use crate::new_file::NewFile;
use crate::retrying_reader::RetryingReader;
use crate::shelf::Shelf;
use crate::shelf_fault::ShelfFault;
use crate::text_buffer::TextBuffer;
use crate::text_source::TextSource;
use std::alloc::Allocator;
use std::fs::{self, File, Files, Metadata, OpenFile, OpenOptions};
use std::io::{self, BufWriter, ErrorKind};
use std::os::unix::fs::MetadataExt;

/// The files of the system. They are written through a buffer. A read that a signal interrupted is made once more, and
/// so the buffer does with a write. No clause says what they hold, nor what a read of one gives, since others may
/// change them at any time.
///
/// A new file is written as `.ira-N` in the folder of the one whose name it gets, N a number that no file there has; the
/// folder is made if there is none. Where the name is a link to a file, that file is replaced. Devices and pipes, and all below `/dev` and `/proc`, are written as
/// they are.
#[derive(Drop)]
pub struct FileShelf<'a, R: Files, A: Allocator> {
    rt: &'a R,
    alloc: A,
    /// The number of the next draft.
    next: u64,
}

/// How often a draft's name may be that of another file.
const TRIES: u64 = 1_000_000;

impl<'a, R: Files, A: Allocator> FileShelf<'a, R, A> {
    /// Files that are opened through this runtime, and written through buffers of this memory.
    pub fn new(rt: &'a R, alloc: A) -> FileShelf<'a, R, A>
        ensures runtime { result.rt ≡ rt.entry }
        ensures memory { result.alloc ≡ alloc }
    {
        FileShelf { rt, alloc, next: 0 }
    }
}

impl<'a, R: Files, A: Allocator + Clone> FileShelf<'a, R, A> {
    // The name that a draft is to get for this one, and the file that has it, if there is one; nothing where none is made.
    // A file that can't be written isn't replaced either.
    fn place(&self, name: &str) -> io::Result<Option<(String<A>, Option<Metadata>)>> {
        if name.starts_with("/dev/") || name.starts_with("/proc/") {
            return Ok(None);
        }
        let name = match fs::symlink_metadata(self.rt, name) {
            Ok(found) if found.is_symlink() => {
                match self.rt.canonicalize(self.alloc.clone()?, name) {
                    Ok(path) => path.into_string(),
                    Err(error) if error.kind() == ErrorKind::NotFound => return Ok(None),
                    Err(error) => return Err(error),
                }
            }
            Ok(_) => String::from_str(self.alloc.clone()?, name)?,
            Err(error) if error.kind() == ErrorKind::NotFound => {
                if let Some((folder, _)) = name.rsplit_once('/') {
                    fs::create_dir_all(self.rt, folder)?;
                }
                return Ok(Some((String::from_str(self.alloc.clone()?, name)?, None)));
            }
            Err(error) => return Err(error),
        };
        let old = fs::metadata(self.rt, name.as_str())?;
        if !old.is_file() {
            return Ok(None);
        }
        OpenOptions::new().write(true).open(self.rt, name.as_str())?;
        Ok(Some((name, Some(old))))
    }

    // The path of the next draft beside the file of this name.
    fn next_path(&mut self, name: &str) -> io::Result<String<A>> {
        let number = self.next;
        self.next = number.wrapping_add(1);
        let alloc = self.alloc.clone()?;
        let path = match name.rsplit_once('/') {
            Some((folder, _)) => format!(in alloc; "{folder}/.ira-{number}")?,
            None => format!(in alloc; ".ira-{number}")?,
        };
        Ok(path)
    }

    // A new file beside the one of this name.
    fn draft(
        &mut self,
        name: String<A>,
        old: Option<Metadata>,
    ) -> io::Result<(R::File, Draft<'a, R, A>)> {
        for _ in 0..TRIES {
            let path = self.next_path(name.as_str())?;
            match File::create_new(self.rt, path.as_str()) {
                Ok(file) => return Ok((file, Draft::new(self.rt, path, name, old))),
                Err(error) if error.kind() == ErrorKind::AlreadyExists => {}
                Err(error) => return Err(error),
            }
        }
        Err(io::Error::from(ErrorKind::AlreadyExists))
    }
}

impl<R: Files, A: Allocator> TextSource for FileShelf<'_, R, A> {
    ghost use Rattle.std.specs.Prelude.{⊤};

    ghost reads = { record { text = λ _ _ _. ⊤; entry = λ _ _ _. ⊤ } };

    fn read<B: Allocator>(&self, name: &str, text: &mut TextBuffer<B>) -> Result<(), ShelfFault> {
        let file = fs::open(self.rt, name)?;
        text.fill(&mut CountingReader::new(RetryingReader::new(file)))
    }

    fn look_up(&self, name: &str) -> FileEntry {
        match fs::metadata(self.rt, name) {
            Ok(found) if found.is_file() => FileEntry::File(FileId {
                device: found.dev(),
                inode: found.ino(),
            }),
            Ok(found) if found.is_dir() => FileEntry::Folder,
            Err(error) if error.kind() == ErrorKind::NotFound => FileEntry::Missing,
            _ => FileEntry::Other,
        }
    }
}

impl<'a, R: Files, A: Allocator + Clone> Shelf for FileShelf<'a, R, A> {
    type Out = NewFile<'a, R, A>;

    type Written = Option<Draft<'a, R, A>>;

    ghost use Rattle.std.specs.Prelude.{None, ⊤};

    ghost files = { λ _. None };

    ghost creates = { λ _ _ _ _. ⊤ };

    ghost closes = { λ _ _ _ _. ⊤ };

    ghost keeps = { λ _ _ _ _. ⊤ };

    fn create(&mut self, name: &str) -> Result<Self::Out, ShelfFault> {
        match self.place(name)? {
            Some((name, old)) => {
                let (file, draft) = self.draft(name, old)?;
                Ok(NewFile::new(BufWriter::new(self.alloc.clone()?, file)?, Some(draft)))
            }
            None => {
                let file = OpenOptions::new()
                    .write(true)
                    .create(true)
                    .open(self.rt, name)?;
                let file = BufWriter::new(self.alloc.clone()?, file)?;
                // Only now, since what is there stays where memory is refused. A device has nothing to take away.
                if file.get_ref().metadata()?.is_file() {
                    file.get_ref().set_len(0)?;
                }
                Ok(NewFile::new(file, None))
            }
        }
    }

    fn close(&mut self, file: Self::Out) -> Result<Self::Written, ShelfFault> {
        let draft = file.flush()?;
        if let Some(draft) = &draft {
            draft.settle()?;
        }
        Ok(draft)
    }

    fn keep(&mut self, file: Self::Written) -> Result<(), ShelfFault> {
        match file {
            Some(draft) => Ok(draft.keep()?),
            None => Ok(()),
        }
    }
}
