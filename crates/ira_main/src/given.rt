ghost use Rattle.std.specs.Prelude.{◌≡◌, IfOk, MatchResult, None};
ghost use Rattle.ira_commands.specs.Given.{file_of};
ghost use Rattle.ira_main.specs.FilesRead.{Gives};
ghost use Rattle.ira_main.specs.Given.{HasAsked, HasGiven, IsRefused, IsUnread, asked_file, named_file, question_file};
ghost use Rattle.ira_main.specs.Given.{sentence_of};

use crate::file_fault::FileFault;
use crate::overwriting::overwritten_input;
use crate::read_files::{FoundLogs, read_logs, read_one};
use crate::source_names::source_names;
use ira_commands::{Reply, asked_text};
use ira_event::OutOfMemory;
use ira_main_cli::{LogSource, QuestionSource};
use ira_main_files::{FileName, TextBuffer, TextSource};
use ira_view_page::NamedText;
use std::alloc::Allocator;
use std::thread::Threads;

/// What a command reads, in this order, and the file that it makes, which is none of these.
#[derive(Clone, Copy)]
pub(crate) struct Inputs<'t, 'a> {
    pub(crate) question: Option<QuestionSource<'a>>,
    pub(crate) certificate: Option<&'a str>,
    pub(crate) logs: &'t LogSource<'a>,
    pub(crate) made: Option<&'a str>,
}

impl<'t, 'a> Inputs<'t, 'a> {
    /// Logs, and a question where one is named; and what is made of these.
    pub(crate) fn asking(
        question: Option<QuestionSource<'a>>,
        logs: &'t LogSource<'a>,
        made: Option<&'a str>,
    ) -> Inputs<'t, 'a>
        ensures { result ≡ record {
          question = question.entry;
          certificate = None;
          logs = logs.entry;
          made = made.entry;
        } }
    {
        Inputs {
            question,
            certificate: None,
            logs,
            made,
        }
    }

    /// The file that the question is read of, if it is one's.
    fn question_file(&self) -> Option<&'a str>
        ensures { result ≡ question_file self.now.question }
    {
        match self.question? {
            QuestionSource::File(name) => Some(name),
            QuestionSource::Sentence(_) => None,
        }
    }

    /// The sentence that stands for the question, if it is one's.
    fn sentence(&self) -> Option<&'a str>
        ensures { result ≡ sentence_of self.now.question }
    {
        match self.question? {
            QuestionSource::File(_) => None,
            QuestionSource::Sentence(sentence) => Some(sentence),
        }
    }

    /// The text of a sentence's question, for a ring of so many nodes; or what comes of it is that it is refused.
    pub(crate) fn asked<A: Allocator + Clone>(
        &self,
        alloc: &A,
        nodes: usize,
    ) -> Result<Result<Vec<u8, A>, Reply<A>>, OutOfMemory>
        ensures { IfOk result (λ asked. MatchResult asked
            (λ text. HasAsked (sentence_of self.now.question) nodes text.items)
            (IsRefused (sentence_of self.now.question) nodes)) }
    {
        match self.sentence() {
            Some(sentence) => asked_text(alloc.clone()?, nodes as u64, sentence.as_bytes()),
            None => Ok(Ok(Vec::new(alloc.clone()?))),
        }
    }

    /// The question: that text, where it is a sentence's, or its file as it was read.
    pub(crate) fn question<'f>(&self, asked: &'f [u8], read: &'f [u8]) -> NamedText<'f>
    where
        'a: 'f,
        ensures { file_of result ≡ asked_file (sentence_of self.now.question) asked.now
            (named_file (question_file self.now.question) read.now) }
    {
        match self.sentence() {
            Some(_) => NamedText {
                name: "--ask",
                text: asked,
            },
            None => named_file(self.question_file(), read),
        }
    }
}

/// The file that is named, with its text.
pub(crate) fn named_file<'f>(name: Option<&'f str>, text: &'f [u8]) -> NamedText<'f>
    ensures { file_of result ≡ named_file name.entry text.now }
{
    let name = name.unwrap_or("");
    NamedText { name, text }
}

/// What was read for a command.
#[derive(Drop)]
pub(crate) struct Given<A: Allocator> {
    /// That of its file; no bytes where it has none.
    pub(crate) question: TextBuffer<A>,
    pub(crate) certificate: TextBuffer<A>,
    pub(crate) names: Vec<FileName<A>, A>,
    pub(crate) logs: FoundLogs<A>,
}

/// Reads what a command asks for. Texts of logs are kept where they are to be, since a pipe can't be read twice.
pub(crate) fn read_given<R, A, F>(
    rt: &R,
    alloc: &A,
    inputs: Inputs<'_, '_>,
    keep: bool,
    shelf: &F,
) -> Result<Result<Given<A>, FileFault<A>>, OutOfMemory>
where
    R: Threads + Sync,
    A: Allocator + Clone + Send + Sync,
    F: TextSource + Sync,
    ensures { Gives result
        (HasGiven F.reads inputs.entry.made inputs.entry.question inputs.entry.certificate inputs.entry.logs.now shelf.now
        keep)
        (IsUnread F.reads inputs.entry.made inputs.entry.question inputs.entry.certificate inputs.entry.logs.now
        shelf.now) }
{
    let names = match source_names(alloc, inputs.logs, shelf)? {
        Ok(names) => names,
        Err(fault) => return Ok(Err(fault)),
    };
    let question_file = inputs.question_file();
    if let Some(name) = overwritten_input(inputs.made, question_file, &names, shelf) {
        return Ok(Err(FileFault::WouldOverwrite(FileName::given(alloc.clone()?, name)?)));
    }
    let question = match read_one(alloc, question_file, shelf)? {
        Ok(text) => text,
        Err(fault) => return Ok(Err(fault)),
    };
    let certificate = match read_one(alloc, inputs.certificate, shelf)? {
        Ok(text) => text,
        Err(fault) => return Ok(Err(fault)),
    };
    match read_logs(rt, alloc.clone()?, &names, keep, shelf)? {
        Ok(logs) => Ok(Ok(Given {
            question,
            certificate,
            names,
            logs,
        })),
        Err(fault) => Ok(Err(fault)),
    }
}
