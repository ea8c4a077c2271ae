ghost use Rattle.std.specs.Prelude.{◌≡◌, ◌<◌, ◌≤◌, ◌↔◌, ◌==◌, IfSome, IsTrue, codes, length, position};
ghost use Rattle.std.specs.Bool.{MatchBool};
ghost use Rattle.ira_event.specs.LogTextFault.{BeginsAsRecord, BeginsWithWord, RestFault};
ghost use Rattle.ira_event.specs.Records.{ReadsOn, ReadsRecord, RecordsLeft, IsUnread};
ghost use Rattle.ira_event.specs.Limits.{MAX_NUMBER, MAX_RECORDS};
ghost use Rattle.ira_event.specs.SentLine.{passed_on};
ghost use Rattle.ira_event.specs.declared.event.Event.TheVariants.{Sent, Got};
ghost use Rattle.ira_event.specs.declared.load.Load.TheVariants.{Msg as Message};

use crate::event::Event;
use crate::limits::MAX_RECORDS;
use crate::log_fault::LogFault;
use crate::log_line::{LogLine, scan_line};
use crate::msg::Msg;
use crate::sent_line::SentLine;
use crate::short_record::scan_short_record;
use std::marker::Model;

/// What stands after the head of a log text of some version, read record by record; nothing is kept of those that
/// were read but their number.
#[derive(Drop)]
pub struct Records<'a> {
    rest: &'a [u8],
    count: usize,
    version: u8,
}

impl<'a> Model for Records<'a> {
    ghost use Rattle.std.specs.Prelude.{◌≤◌};
    ghost use Rattle.ira_event.specs.Records.{RecordsLeft};
    ghost use Rattle.ira_event.specs.Limits.{MAX_RECORDS};

    ghost Value = { RecordsLeft };

    ghost view = { λ r. record { version = r.version; rest = r.rest.now; count = r.count } };

    ghost invariant = { λ r. r.count ≤ MAX_RECORDS };
}

impl<'a> Records<'a> {
    /// The records of what stands after a head and so many records, which were read before.
    #[inline(always)]
    pub fn new(version: u8, text: &'a [u8], count: usize) -> Records<'a>
        requires { count ≤ MAX_RECORDS }
        ensures { result ≡ record { version = version; rest = text.now; count = count } }
    {
        Records {
            rest: text,
            count,
            version,
        }
    }

    #[inline(always)]
    pub fn version(&self) -> u8
        ensures { result ≡ self.now.version }
    {
        self.version
    }

    /// What was not read yet.
    #[inline(always)]
    pub fn rest(&self) -> &'a [u8]
        ensures { result.now ≡ self.now.rest }
    {
        self.rest
    }

    /// How many bytes were not read yet.
    #[inline(always)]
    pub fn unread(&self) -> usize
        ensures { result ≡ length self.now.rest }
    {
        self.rest.len()
    }

    /// How many records were read.
    #[inline(always)]
    pub fn count(&self) -> usize
        ensures value { result ≡ self.now.count }
        ensures few { result ≤ MAX_RECORDS }
    {
        self.count
    }

    /// The event of the next record, `None` where the end line follows and ends the text, or the
    /// fault of what follows.
    #[inline(always)]
    pub fn next_event(&mut self) -> Result<Option<Event>, LogFault>
        ensures { ReadsOn self.old self.new result }
    {
        if self.count < MAX_RECORDS
            && let Some((event, after)) = scan_short_record(self.rest)
        {
            self.count += 1;
            self.rest = after;
            return Ok(Some(event));
        }
        self.next_line()
    }

    /// The message of the sending that was read last, from what was left before it. `None` where its line isn't short, or
    /// is near the end of the text.
    pub fn last_sent(&self, before: &[u8], message: Msg) -> Option<SentLine>
        requires { (old : RecordsLeft) × (old.rest ≡ before.now) × ReadsRecord old self.now (Sent (Message message)) }
        ensures { IfSome result (λ sent. sent ≡ message) }
    {
        SentLine::of_sending(before, before.len() - self.rest.len(), message)
    }

    /// Reads the receipt of the message, if its line comes next. False tells nothing of what comes.
    #[inline(always)]
    pub fn next_receipt(&mut self, sent: &SentLine) -> bool
        ensures { MatchBool result (ReadsRecord self.old self.new (Got (Message sent.now))) (self.new ≡ self.old) }
    {
        if self.count < MAX_RECORDS
            && let Some(after) = sent.skip_receipt(self.rest)
        {
            self.count += 1;
            self.rest = after;
            return true;
        }
        false
    }

    /// Reads the sending by which the message is passed on, if its line comes next; the message is then that one. False
    /// tells nothing of what comes, and the message may be either.
    #[inline(always)]
    pub fn next_passed(&mut self, sent: &mut SentLine) -> bool
        requires { sent.old.hop < MAX_NUMBER }
        ensures read { MatchBool result (ReadsRecord self.old self.new (Sent (Message (passed_on sent.old))))
            (self.new ≡ self.old) }
        ensures passed { IsTrue result → sent.new ≡ passed_on sent.old }
    {
        if self.count < MAX_RECORDS
            && let Some(after) = sent.skip_passed(self.rest)
        {
            self.count += 1;
            self.rest = after;
            return true;
        }
        false
    }

    /// The same of a line of any length. Apart from `next_event`, so that the room for the line is made only
    /// where it is read.
    #[inline(always)]
    fn next_line(&mut self) -> Result<Option<Event>, LogFault>
        ensures { ReadsOn self.old self.new result }
    {
        let Some((line, after)) = scan_line(self.rest) else {
            return Err(unread_fault(self.rest, self.count, self.version));
        };
        match line {
            LogLine::Record(event) => {
                if !event.is_of_version(self.version) {
                    return Err(unread_fault(self.rest, self.count, self.version));
                }
                if self.count == MAX_RECORDS {
                    return Err(LogFault::TooMany);
                }
                if !event.is_in_range() {
                    return Err(LogFault::Range(self.count as u32 + 5));
                }
                self.count += 1;
                self.rest = after;
                Ok(Some(event))
            }
            LogLine::End(count) => {
                if count as usize != self.count {
                    return Err(LogFault::Count);
                }
                if !after.is_empty() {
                    return Err(LogFault::Trailing);
                }
                Ok(None)
            }
        }
    }
}

/// The fault after so many records, where the line of no record of the version follows, nor an end line.
#[cold]
fn unread_fault(text: &[u8], records: usize, version: u8) -> LogFault
    requires unread { IsUnread version text.now }
    requires count { records ≤ MAX_RECORDS }
    ensures { RestFault version records text.now result }
{
    let Some(end) = line_end(text) else {
        return LogFault::Cut;
    };
    let (line, _) = text.split_at(end);
    if records == MAX_RECORDS && begins_as_record(line, version) {
        return LogFault::TooMany;
    }
    LogFault::Line(records as u32 + 5)
}

/// Where the text's first line feed stands.
pub fn line_end(text: &[u8]) -> Option<usize>
    ensures { result ≡ position (λ c. c == 10) text.now }
{
    text.iter().position(|c| *c == b'\n')
}

/// Whether the line begins as a record of the version does.
fn begins_as_record(line: &[u8], version: u8) -> bool
    ensures { IsTrue result ↔ BeginsAsRecord version line.now }
{
    begins_with_word(line) || is_yield(line, version)
}

/// Whether the line begins with the word of a draw, a sending or a receipt.
fn begins_with_word(line: &[u8]) -> bool
    ensures { IsTrue result ↔ BeginsWithWord line.now }
{
    line.starts_with(b"draw ") || line.starts_with(b"send ") || line.starts_with(b"recv ")
}

/// Whether the line is a yield, which version 1 has not.
fn is_yield(line: &[u8], version: u8) -> bool
    ensures { IsTrue result ↔ ((1 < version) × (line.now ≡ codes "yield")) }
{
    version > 1 && line == b"yield".as_slice()
}
