ghost use Rattle.std.specs.Prelude.{◌≡◌, ◌<◌, ◌≤◌, ◌++◌, ◌∷◌, [], ℕ, Bool, List, None, Ok, OnOk, IfOk, MatchBool, drop, length, map, take};
ghost use Rattle.ira_view.specs.Texts.{AreFiles};
ghost use Rattle.ira_main.specs.FilesRead.{CannotRead, Gives, HasFound, HasRead, HasTakenFiles, ReadsFiles, Stops};
ghost use Rattle.ira_main.specs.Given.{named, named_text};

use crate::file_fault::FileFault;
use ira_audit::RingAudit;
use ira_event::{MAX_NODES, OutOfMemory};
use ira_main_files::{FileName, ShelfFault, TextBuffer, TextSource};
use ira_view_page::NamedText;
use std::alloc::Allocator;
use std::num::NonZeroUsize;
use std::thread::{self, Threads};

/// Reads the text of the file of this name, and says whether it can be read.
pub(crate) fn read_into<A: Allocator, F: TextSource>(
    name: &str,
    text: &mut TextBuffer<A>,
    shelf: &F,
) -> Result<bool, OutOfMemory>
    ensures { IfOk result (λ is_read. MatchBool is_read (F.reads.text shelf.now name.now (Ok text.new))
        (CannotRead F.reads shelf.now name.now)) }
{
    match shelf.read(name, text) {
        Ok(()) => Ok(true),
        Err(ShelfFault::Device) => Ok(false),
        Err(ShelfFault::NotFound) => Ok(false),
        Err(ShelfFault::OutOfMemory) => Err(OutOfMemory),
    }
}

/// The text of the file of this name, if one is named; else no bytes.
pub(crate) fn read_one<A: Allocator + Clone, F: TextSource>(
    alloc: &A,
    name: Option<&str>,
    shelf: &F,
) -> Result<Result<TextBuffer<A>, FileFault<A>>, OutOfMemory>
    ensures { Gives result
        (λ text. ReadsFiles F.reads shelf.now (named name.entry) (named_text name.entry text) None)
        (Stops F.reads shelf.now (named name.entry)) }
{
    let mut text = TextBuffer::new(alloc.clone()?);
    let Some(name) = name else {
        return Ok(Ok(text));
    };
    if read_into(name, &mut text, shelf)? {
        Ok(Ok(text))
    } else {
        Ok(Err(FileFault::Unread(FileName::given(alloc.clone()?, name)?)))
    }
}

/// The logs in some files.
#[derive(Drop)]
pub(crate) struct FoundLogs<A: Allocator> {
    pub(crate) audit: RingAudit<A>,
    /// Their texts, where these are kept.
    pub(crate) texts: Vec<Vec<u8, A>, A>,
}

impl<A: Allocator + Clone> FoundLogs<A> {
    fn new(alloc: &A) -> Result<FoundLogs<A>, OutOfMemory>
        ensures { IfOk result (λ found. (keep : Bool) → HasFound keep found []) }
    {
        Ok(FoundLogs {
            audit: RingAudit::new(alloc.clone()?),
            texts: Vec::new(alloc.clone()?),
        })
    }

    /// Takes the text that comes next, and keeps it where that is asked for.
    fn take(&mut self, alloc: &A, text: &[u8], keep: bool) -> Result<(), OutOfMemory>
        ensures { OnOk result ((texts : List (List ℕ)) → HasFound keep self.old texts
            → HasFound keep self.new (texts ++ text.now ∷ [])) }
    {
        self.audit.take(text)?;
        if !keep {
            return Ok(());
        }
        self.texts.push(text.to_vec(alloc.clone()?)?)?;
        Ok(())
    }

    fn append(&mut self, next: FoundLogs<A>) -> Result<(), OutOfMemory>
        ensures { OnOk result ((keep : Bool) (before texts : List (List ℕ)) → HasFound keep self.old before
            → HasFound keep next texts → HasFound keep self.new (before ++ texts)) }
    {
        let FoundLogs { audit, mut texts } = next;
        self.audit.append(audit)?;
        self.texts.append(&mut texts)?;
        Ok(())
    }
}

/// The logs of a share of the files, as far as these were read.
#[derive(Drop)]
struct FilesShare<A: Allocator> {
    logs: FoundLogs<A>,
    /// The room of the texts. It is kept until all threads are joined, since to unmap it interrupts each one that runs.
    text: TextBuffer<A>,
    /// How many files were read.
    read: usize,
}

impl<A: Allocator + Clone> FilesShare<A> {
    /// Reads those of the files of these names that weren't read yet, in turn, up to the first that can't be.
    fn read_on<F: TextSource>(
        &mut self,
        alloc: &A,
        names: &[FileName<A>],
        keep: bool,
        shelf: &F,
    ) -> Result<Result<(), FileFault<A>>, OutOfMemory>
        requires { HasRead F.reads shelf.now keep names.now self.old.read self.old.logs }
        ensures read { OnOk result (HasRead F.reads shelf.now keep names.now self.new.read self.new.logs) }
        ensures all { Gives result (λ _. HasTakenFiles F.reads shelf.now keep names.now self.new.logs)
            (Stops F.reads shelf.now names.now) }
    {
        while self.read < names.len() {
            let name = names[self.read].as_str();
            if !read_into(name, &mut self.text, shelf)? {
                return Ok(Err(FileFault::Unread(FileName::given(alloc.clone()?, name)?)));
            }
            self.logs.take(alloc, self.text.bytes(), keep)?;
            self.read += 1;
        }
        Ok(Ok(()))
    }
}

/// The logs in the files of these names, up to the first that can't be read now.
fn read_share<A: Allocator + Clone, F: TextSource>(
    alloc: &A,
    names: &[FileName<A>],
    keep: bool,
    shelf: &F,
) -> Result<FilesShare<A>, OutOfMemory>
    ensures { IfOk result (λ share. HasRead F.reads shelf.now keep names.now share.read share.logs) }
{
    let mut share = FilesShare {
        logs: FoundLogs::new(alloc)?,
        text: TextBuffer::new(alloc.clone()?),
        read: 0,
    };
    // A file that was refused since others are open can be opened once these were read.
    let _stopped = share.read_on(alloc, names, keep, shelf)?;
    Ok(share)
}

/// The logs in the files of a share, of which those that weren't read yet are read.
fn finish_share<A: Allocator + Clone, F: TextSource>(
    alloc: &A,
    mut share: FilesShare<A>,
    names: &[FileName<A>],
    keep: bool,
    shelf: &F,
) -> Result<Result<FoundLogs<A>, FileFault<A>>, OutOfMemory>
    requires { HasRead F.reads shelf.now keep names.now share.read share.logs }
    ensures { Gives result (HasTakenFiles F.reads shelf.now keep names.now) (Stops F.reads shelf.now names.now) }
{
    match share.read_on(alloc, names, keep, shelf)? {
        Ok(()) => Ok(Ok(share.logs)),
        Err(fault) => Ok(Err(fault)),
    }
}

/// The logs in the files of these names, which are read in turn.
pub(crate) fn read_in_turn<A: Allocator + Clone, F: TextSource>(
    alloc: &A,
    names: &[FileName<A>],
    keep: bool,
    shelf: &F,
) -> Result<Result<FoundLogs<A>, FileFault<A>>, OutOfMemory>
    ensures { Gives result (HasTakenFiles F.reads shelf.now keep names.now) (Stops F.reads shelf.now names.now) }
{
    let share = read_share(alloc, names, keep, shelf)?;
    finish_share(alloc, share, names, keep, shelf)
}

/// The names of the share that begins there.
pub(crate) fn chunk_from<T>(names: &[T], start: usize, size: usize) -> &[T]
    requires { start ≤ length names.now }
    ensures { result.now ≡ take size (drop start names.now) }
{
    let left = &names[start..];
    &left[..size.min(left.len())]
}

/// How many threads the machine runs at a time, or 1 where that isn't known.
pub(crate) fn thread_count(rt: &impl Threads) -> usize
    ensures { 0 < result }
{
    thread::available_parallelism(rt).map_or(1, NonZeroUsize::get)
}

/// How many files a thread reads. Where there are more than a ring has nodes, all are one share: an audit keeps no log past
/// the ring's size, which each of several would count for itself.
fn share_size(rt: &impl Threads, files: usize) -> usize
    ensures { 0 < result }
{
    if files > MAX_NODES {
        return files;
    }
    files.div_ceil(thread_count(rt)).max(1)
}

/// The logs in the files of these names. Threads that run at a time have a share of the names each. Where one of them
/// stops, it is gone on when all have ended: then no other file is open, so the answer can't depend on how many were.
pub(crate) fn read_logs<R, A, F>(
    rt: &R,
    alloc: A,
    names: &[FileName<A>],
    keep: bool,
    shelf: &F,
) -> Result<Result<FoundLogs<A>, FileFault<A>>, OutOfMemory>
where
    R: Threads + Sync,
    A: Allocator + Clone + Send + Sync,
    F: TextSource + Sync,
    ensures { Gives result (HasTakenFiles F.reads shelf.now keep names.now) (Stops F.reads shelf.now names.now) }
{
    let size = share_size(rt, names.len());
    let shares = thread::map_chunks(
        rt,
        alloc.clone()?,
        names,
        size,
        &|_, some: &[FileName<A>]| -> Result<FilesShare<A>, OutOfMemory>
            ensures { IfOk result (λ share.
                HasRead F.reads shelf.entry.now keep some.now share.read share.logs) }
        { read_share(&alloc, some, keep, shelf) },
    )?;
    let mut logs = FoundLogs::new(&alloc)?;
    let mut done = 0;
    for share in shares {
        let some = chunk_from(names, done, size);
        match finish_share(&alloc, share?, some, keep, shelf)? {
            Ok(more) => logs.append(more)?,
            Err(fault) => return Ok(Err(fault)),
        }
        done += some.len();
    }
    Ok(Ok(logs))
}

/// The texts that were kept of logs in the files of these names, each with its name.
pub(crate) fn named_texts<'t, A: Allocator>(
    alloc: A,
    names: &'t [FileName<A>],
    texts: &'t [Vec<u8, A>],
) -> Result<Vec<NamedText<'t>, A>, OutOfMemory>
    ensures { IfOk result (λ named. length texts.now ≡ length names.now
        → AreFiles names.now (map (λ text. text.items) texts.now) named.items) }
{
    let mut named = Vec::with_capacity(alloc, texts.len())?;
    for i in 0..texts.len().min(names.len()) {
        named.push(NamedText {
            name: names[i].as_str(),
            text: &texts[i],
        })?;
    }
    Ok(named)
}
