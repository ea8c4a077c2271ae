ghost use Rattle.std.specs.Prelude.{◌≤◌, ◌<◌, ℕ, IfOk, IfSome, MatchOption};
ghost use Rattle.ira_view_explain.specs.HeadsHint.{AreMissing, IsOfPlace, IsSo};
ghost use Rattle.ira_view_explain.specs.HeadsTold.{AreHeads, AreHeadsTold, AreLogFiles};
ghost use Rattle.ira_view_page.specs.Printable.{IsPrintable};

use crate::heads_hint::HeadsHint;
use crate::numbered::fill;
use ira_event::{HeadFault, LogHead, OutOfMemory, open_log};
use ira_view_page::{Emphasis, Evidence, HeadRow, NamedText, Page, shown_width};
use std::alloc::Allocator;

/// The most logs that are all shown.
const ALL: usize = 12;

/// The head of the log in a file.
#[derive(Clone, Copy)]
struct FileHead<'a> {
    /// The number of the log, counted from 0.
    log: usize,
    file: &'a str,
    head: LogHead,
}

impl FileHead<'_> {
    /// Adds the word for a log, and `I (FILE:LINE) says `WORD N``.
    fn print_said<A: Allocator>(
        &self,
        page: &mut Page<A>,
        log: &str,
        line: usize,
        word: &str,
        n: u8,
    )
        requires log { IsPrintable log.now }
        requires word { IsPrintable word.now }
    {
        page.words(log);
        page.number(self.log as u64);
        page.words(" (");
        page.place(self.file, line);
        page.words(") says `");
        page.words(word);
        page.number(n as u64);
        page.words("`");
    }

    /// Adds its row in a table with so wide a column of files.
    fn print_row<A: Allocator>(
        &self,
        page: &mut Page<A>,
        mark: Emphasis,
        width: usize,
        with_version: bool,
    )
        requires { width ≤ 1000 }
    {
        page.begin(mark);
        page.number_to(5, self.log as u64);
        page.words("  ");
        page.show(self.file.as_bytes());
        page.number_to(14 + width, self.head.nodes.get() as u64);
        page.number_to(21 + width, self.head.place as u64);
        if with_version {
            page.number_to(30 + width, self.head.version as u64);
        }
        page.end();
    }
}

/// The heads of the logs in these files.
fn read_heads<A: Allocator>(
    alloc: A,
    files: &[NamedText<'_>],
) -> Result<Vec<LogHead, A>, OutOfMemory>
    requires { AreLogFiles files.now }
    ensures { IfOk result (λ heads. AreHeads files.now heads.items) }
{
    let mut heads = Vec::with_capacity(alloc, files.len())?;
    for file in files {
        let Ok((head, _)) = open_log(file.text) else {
            unreachable!()
        };
        heads.push(head)?;
    }
    Ok(heads)
}

/// The number of the first head of this place, from one on.
fn head_of(heads: &[LogHead], from: usize, place: u8) -> Option<usize>
    ensures { MatchOption result ((i : ℕ) → from ≤ i → ¬ (IsOfPlace heads.now i place))
        (λ i. (from ≤ i) × IsOfPlace heads.now i place) }
{
    for i in from..heads.len() {
        if heads[i].place == place {
            return Some(i);
        }
    }
    None
}

/// The place of the first log whose place another one has too.
fn repeated_place(heads: &[LogHead]) -> Option<u8>
    ensures { IfSome result (λ place. (i j : ℕ) × (i < j) × IsOfPlace heads.now i place × IsOfPlace heads.now j place) }
{
    for i in 0..heads.len() {
        let place = heads[i].place;
        if head_of(heads, i + 1, place).is_some() {
            return Some(place);
        }
    }
    None
}

/// The places of a ring of so many nodes that no log is of.
fn missing_places<A: Allocator>(
    alloc: A,
    heads: &[LogHead],
    nodes: u8,
) -> Result<Vec<u8, A>, OutOfMemory>
    ensures { IfOk result (λ places. AreMissing heads.now nodes places.items) }
{
    let mut places = Vec::new(alloc);
    for place in 0..nodes {
        if head_of(heads, 0, place).is_none() {
            places.push(place)?;
        }
    }
    Ok(places)
}

/// A usual cause of a fault of these heads.
fn hint_of<A: Allocator>(
    alloc: A,
    heads: &[LogHead],
    fault: HeadFault,
) -> Result<Option<HeadsHint<A>>, OutOfMemory>
    ensures { IfOk result (λ found. IfSome found (IsSo heads.now)) }
{
    let Some(first) = heads.first() else {
        return Ok(None);
    };
    let nodes = first.nodes.get();
    Ok(match fault {
        HeadFault::Number if heads.len() < usize::from(nodes) => {
            Some(HeadsHint::MissingPlaces(missing_places(alloc, heads, nodes)?))
        }
        HeadFault::Number => Some(HeadsHint::Words(
            "files of a larger ring that ran in the same folder before may be left there.",
        )),
        HeadFault::Size(_) => None,
        HeadFault::Place(log) => match (repeated_place(heads), heads.get(usize::from(log))) {
            (Some(place), _) => Some(HeadsHint::PlaceTwice(place)),
            (None, Some(head)) if head_of(heads, 0, log) == Some(usize::from(head.place)) => {
                Some(HeadsHint::Exchanged(log, head.place))
            }
            (None, _) => Some(HeadsHint::Words(
                "these are all the logs, in another order. A shell sorts 10.log before 2.log; in order of place: \
                 ira logs --dir DIR, or ira logs $(ls FILES | sort -V)",
            )),
        },
        HeadFault::Version(_) => Some(HeadsHint::Words(
            "a log of version 1 is one of version 2 but for its first line: write `irlog 2` there.",
        )),
    })
}

/// Why logs aren't those of one ring.
#[derive(Drop)]
pub(crate) struct HeadsFinding<A: Allocator> {
    fault: HeadFault,
    /// The head of each log.
    pub(crate) heads: Vec<LogHead, A>,
    pub(crate) hint: Option<HeadsHint<A>>,
}

impl<A: Allocator + Clone> HeadsFinding<A> {
    /// Of the logs in these files, which have this fault.
    pub(crate) fn find(
        alloc: &A,
        files: &[NamedText<'_>],
        fault: HeadFault,
    ) -> Result<HeadsFinding<A>, OutOfMemory>
        requires { AreLogFiles files.now }
        ensures { IfOk result (λ finding. AreHeads files.now finding.heads.items) }
    {
        let heads = read_heads(alloc.clone()?, files)?;
        let hint = hint_of(alloc.clone()?, &heads, fault)?;
        Ok(HeadsFinding { fault, heads, hint })
    }

    /// The number of the log that the fault names.
    fn named(&self) -> Option<usize> {
        match self.fault {
            HeadFault::Number => None,
            HeadFault::Size(i) | HeadFault::Place(i) | HeadFault::Version(i) => Some(i.into()),
        }
    }

    /// The head of a log, with its file.
    fn row<'f>(&self, files: &[NamedText<'f>], log: usize) -> Option<FileHead<'f>> {
        Some(FileHead {
            log,
            file: files.get(log)?.name,
            head: self.heads.get(log).copied()?,
        })
    }

    /// Adds what the fault is, and the table of heads.
    pub(crate) fn print(&self, files: &[NamedText<'_>], page: &mut Page<A>) {
        let (Some(first), Some(named)) = (
            self.row(files, 0),
            self.row(files, self.named().unwrap_or(0)),
        ) else {
            page.line(Emphasis::Plain, "No file is given.");
            return;
        };
        page.begin(Emphasis::Plain);
        self.print_fault(page, &first, &named);
        page.end();
        page.blank();
        self.print_table(files, page);
        if self.hint.is_some() {
            page.blank();
        }
    }

    /// Adds what the named log says, or the first one, and what is due.
    fn print_fault(&self, page: &mut Page<A>, first: &FileHead<'_>, named: &FileHead<'_>) {
        let (nodes, other) = (first.head.nodes.get(), named.head.nodes.get());
        match self.fault {
            HeadFault::Number => {
                page.number_of(self.heads.len(), "file");
                page.words(" given; ");
                first.print_said(page, "log ", 2, "nodes ", nodes);
                fill(page, ", so {} are due.", [nodes]);
            }
            HeadFault::Size(_) => {
                named.print_said(page, "Log ", 2, "nodes ", other);
                page.words(", ");
                first.print_said(page, "log ", 2, "nodes ", nodes);
                page.words(".");
            }
            HeadFault::Place(_) => {
                named.print_said(page, "Log ", 3, "place ", named.head.place);
                let log = named.log as u64;
                fill(
                    page,
                    "; log number {} is to be that of place {}.",
                    [log, log],
                );
            }
            HeadFault::Version(_) => {
                named.print_said(page, "Log ", 1, "irlog ", named.head.version);
                page.words(", ");
                first.print_said(page, "log ", 1, "irlog ", first.head.version);
                page.words(".");
            }
        }
    }

    /// Whether the row of a log is shown: of a long table the first four, and three on each side of the named one.
    fn is_shown(&self, log: usize) -> bool {
        self.heads.len() <= ALL
            || log < 4
            || self.named().is_some_and(|named| log.abs_diff(named) <= 3)
    }

    /// Adds the heads, with the one that is named marked.
    fn print_table(&self, files: &[NamedText<'_>], page: &mut Page<A>) {
        let width = files_width(files);
        let with_versions = matches!(self.fault, HeadFault::Version(_));
        page.begin(Emphasis::Plain);
        page.words("log  file");
        page.pad_to(7 + width);
        page.words("  nodes  place");
        if with_versions {
            page.words("  version");
        }
        page.end();
        let mut skips = false;
        for log in 0..self.heads.len() {
            if self.is_shown(log) {
                skips = false;
                let mark = if self.named() == Some(log) {
                    Emphasis::Named
                } else {
                    Emphasis::Plain
                };
                if let Some(row) = self.row(files, log) {
                    row.print_row(page, mark, width, with_versions);
                }
            } else if !skips {
                skips = true;
                page.line(Emphasis::Plain, "..");
            }
        }
    }

    /// What it rests on: the head of each log.
    pub(crate) fn evidence(
        &self,
        alloc: &A,
        files: &[NamedText<'_>],
    ) -> Result<Vec<Evidence<A>, A>, OutOfMemory>
        requires { AreHeads files.now self.now.heads.items }
        ensures { IfOk result (λ told. AreHeadsTold files.now told.items) }
    {
        let mut told = Vec::with_capacity(alloc.clone()?, files.len())?;
        for file in files {
            let log = told.len();
            let head = self.heads[log];
            told.push(Evidence::Head(HeadRow {
                log,
                file: String::from_str(alloc.clone()?, file.name)?,
                version: head.version,
                nodes: head.nodes.get(),
                place: head.place,
            }))?;
        }
        Ok(told)
    }
}

/// How wide the column of files is.
fn files_width(files: &[NamedText<'_>]) -> usize
    ensures { result ≤ 1000 }
{
    let mut width = 4;
    for file in files {
        width = width.max(shown_width(file.name.as_bytes()));
    }
    width.min(1000)
}
