ghost use Rattle.std.specs.Prelude.{◌≡◌, ◌≤◌, ◌++◌, codes, length};
ghost use Rattle.ira_ask.specs.SentenceText.{word_of};
ghost use Rattle.ira_event.specs.Sink.{Wrote};
ghost use Rattle.ira_commands.specs.CommandFault.{command_fault_text, due_after, sentence_fault_text};

use ira_ask::{SentenceFault, SentencePart};
use ira_event::{Line, Sink, WriteFault, write_bytes};
use ira_ring::RunFault;
use ira_view::{refused_run, too_many_events, write_cut_fault};
use ira_view_moment::CutFault;

/// Why a command is refused.
#[derive(Clone, Copy)]
pub enum CommandFault {
    /// A ring of so many nodes is none.
    RingSize,
    /// The numbers of events that are asked for are no consistent cut of the logs.
    NoMoment(CutFault),
    /// The question has no case of the number that is asked for.
    NoCase,
    /// A node that is to lead is none of the ring.
    NoPlace,
    /// So many events have the columns that are asked for, and these are too many for one picture.
    TooManyEvents(u32),
    /// The columns that were found for events aren't right.
    WrongColumns,
    /// The run was refused, or came to nothing.
    RunRefused(RunFault),
    /// The text of the certificate couldn't be read back.
    CertificatePastLimits,
    /// There is no question for a text that should be a sentence's.
    NoSentence(SentenceFault),
}

/// What may stand after a part of a sentence, or at its beginning.
fn due_after(part: Option<SentencePart>) -> &'static [u8]
    ensures text { result.now ≡ due_after part }
    ensures short { length result.now ≤ 90 }
{
    match part {
        None => b"a sentence begins with `any CLAUSE`, `all CLAUSE` or `node P CLAUSE`",
        Some(part) => match part {
            SentencePart::Any => {
                b"after `any CLAUSE` may stand `, other CLAUSE`, `, each other CLAUSE` or `, all CLAUSE`"
            }
            SentencePart::Other => {
                b"after `other CLAUSE` may stand `, each other CLAUSE` or `, all CLAUSE`"
            }
            SentencePart::EachOther => b"after `each other CLAUSE` may stand `, all CLAUSE`",
            SentencePart::All => b"after `all CLAUSE` nothing may stand",
        },
    }
}

/// The line on a sentence that goes on after this part, or begins, with no part that may stand there.
fn part_line(last: Option<SentencePart>) -> Line
    ensures { result ≡ codes "ira: " ++ due_after last ++ codes "; see `ira guide questions`\n" }
{
    let mut line = Line::new();
    line.add(b"ira: ");
    line.add(due_after(last));
    line.add(b"; see `ira guide questions`\n");
    line
}

/// The line on a part without a clause.
fn clause_line(part: SentencePart) -> Line
    ensures { result ≡ codes "ira: after `" ++ word_of part
        ++ codes "` a clause is due, as `leader` or `(active and round > 1)`; see `ira guide questions`\n" }
{
    let mut line = Line::new();
    line.add(b"ira: after `");
    line.add(part.word());
    line.add(b"` a clause is due, as `leader` or `(active and round > 1)`");
    line.add(b"; see `ira guide questions`\n");
    line
}

/// Writes the line on a text that has no question.
fn write_sentence_fault<W: Sink>(fault: SentenceFault, err: &mut W) -> Result<(), WriteFault>
    ensures { Wrote result (sentence_fault_text fault) (W.state err.old) (W.state err.new) }
{
    match fault {
        SentenceFault::TooLong => write_bytes(b"ira: a sentence has at most 65,536 bytes\n", err),
        SentenceFault::NoPart(last) => part_line(last).write(err),
        SentenceFault::NoClause(part) => clause_line(part).write(err),
        SentenceFault::NoNode => {
            write_bytes(
                b"ira: after `node ` a place and a clause are due, as `node 3 leader`; see `ira guide questions`\n",
                err,
            )
        }
        SentenceFault::NoPlace => {
            write_bytes(b"ira: SENTENCE names a node that the ring has not\n", err)
        }
        SentenceFault::TooDeep => {
            write_bytes(
                b"ira: with that of all nodes a clause is nested deeper than 32\n",
                err,
            )
        }
        SentenceFault::ManyCases => write_bytes(b"ira: a question has at most 32,385 cases\n", err),
        SentenceFault::LongQuestion => write_bytes(b"ira: a question has at most 64 MiB\n", err),
        SentenceFault::OutOfMemory => write_bytes(b"ira: out of memory\n", err),
    }
}

impl CommandFault {
    /// Writes its line.
    pub fn write<W: Sink>(&self, err: &mut W) -> Result<(), WriteFault>
        ensures { Wrote result (command_fault_text self.now) (W.state err.old) (W.state err.new) }
    {
        match self {
            CommandFault::RingSize => write_bytes(b"ira: ring size\n", err),
            CommandFault::NoMoment(fault) => write_cut_fault(*fault, err),
            CommandFault::NoCase => {
                write_bytes(b"ira: --case names a case that the question has not\n", err)
            }
            CommandFault::NoPlace => {
                write_bytes(b"ira: --leads names a node that the ring has not\n", err)
            }
            CommandFault::TooManyEvents(events) => too_many_events(*events).write(err),
            CommandFault::WrongColumns => {
                write_bytes(b"ira: a fault of ira: wrong columns of events\n", err)
            }
            CommandFault::RunRefused(fault) => refused_run(*fault).write(err),
            CommandFault::CertificatePastLimits => {
                write_bytes(b"ira: certificate past the limits\n", err)
            }
            CommandFault::NoSentence(fault) => write_sentence_fault(*fault, err),
        }
    }
}
