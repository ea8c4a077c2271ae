ghost use Rattle.std.specs.Prelude.{◌≡◌, ◌↔◌, [], IfErr, IfOk, IsTrue, Ok, codes, fold, map, option_map};
ghost use Rattle.clap.specs.Words.{app_of, found_of, kind_of, rows_of};
ghost use Rattle.clap.specs.declared.error.kind.ErrorKind.TheVariants as kind;
ghost use Rattle.ira_main_cli.specs.Asked.{AsksLogs, AsksNothing, AsksReasons, HasAnswer, HasExpectation, HasFiles};
ghost use Rattle.ira_main_cli.specs.Asked.{HasFilesToDecide, HasFilesToRewrite, HasFolders, HasLeaders, HasLogs};
ghost use Rattle.ira_main_cli.specs.Asked.{HasLogsToDraw, HasLogsToMend, HasLogsToShow, HasLost, HasMoment, HasOptions};
ghost use Rattle.ira_main_cli.specs.Asked.{HasSentence, HasSize, HasTopic, MayHaveLogs, MayHaveSource, MayNameLogs};
ghost use Rattle.ira_main_cli.specs.Asked.{MayNameQuestion, NamesAnswer};
ghost use Rattle.ira_main_cli.specs.Asked.{NamesAnswers, NamesFolders, NamesLogs, NamesLogsToDraw};
ghost use Rattle.ira_main_cli.specs.Asked.{NamesLogsToJudge, NamesLogsToMend, NamesLogsToShow, NamesMoment, NamesSize};
ghost use Rattle.ira_main_cli.specs.Asked.{NamesFiles, NamesFilesToDecide, NamesFilesToRewrite, NamesOptions};
ghost use Rattle.ira_main_cli.specs.Asked.{NamesSentence, NamesStart, NamesTopic, SaysStart};
ghost use Rattle.ira_main_cli.specs.CommandEntry.{with_entry};
ghost use Rattle.ira_main_cli.specs.CommandLine.{commands, ira_app, ira_top};
ghost use Rattle.ira_main_cli.specs.CommandLine.{IsOneOf};
ghost use Rattle.ira_main_cli.specs.Options.{AreNumbers, ListsNumbers, WritesNumbers, parts_of};
ghost use Rattle.ira_main_cli.specs.Request.{AreAcceptedWords, Asks, GoTogether, GoTogetherAfter, IsMadeOf};
ghost use Rattle.ira_main_cli.specs.Request.{IsVersionOption, MayBeRefused};
ghost use Rattle.ira_main_cli.specs.declared.options_fault.OptionsFault.TheVariants as options;
ghost use Rattle.ira_main_cli.specs.declared.request.Request.TheVariants as request;
ghost use Rattle.ira_main_cli.specs.declared.words_fault.WordsFault.TheVariants as fault;

use crate::argument::Argument;
use crate::argument::ArgumentForm::{Files, Flag, Value, Word};
use crate::argument::Need::{Default, Optional, Required};
use crate::ask_request::AskRequest;
use crate::asked_leaders::AskedLeaders;
use crate::asked_moment::AskedMoment;
use crate::asked_size::AskedSize;
use crate::case_selection::CaseSelection;
use crate::check_request::CheckRequest;
use crate::command_entry::CommandEntry;
use crate::decide_request::DecideRequest;
use crate::draw_request::DrawRequest;
use crate::each_request::EachRequest;
use crate::expectation::Expectation;
use crate::explain_request::ExplainRequest;
use crate::explained_answer::ExplainedAnswer;
use crate::folder_detail::FolderDetail;
use crate::guide_topic::GuideTopic;
use crate::log_source::LogSource;
use crate::logs_request::LogsRequest;
use crate::mend_request::MendRequest;
use crate::options::{flag, given_number, given_text, names, number, text};
use crate::options_fault::OptionsFault;
use crate::question_source::QuestionSource;
use crate::request::Request;
use crate::rewrite_request::RewriteRequest;
use crate::run_request::RunRequest;
use crate::show_request::ShowRequest;
use crate::words_fault::WordsFault;
use clap::builder::ValueParser;
use clap::error::ErrorKind;
use clap::{ArgMatches, Command, Error};
use std::alloc::{AllocError, Global};

const USAGE: &str =
    "ira < LOG\n       ira logs [--over] [--leads <P,..|any|FILE>] [--json] <LOGS>\n       \
    ira logs --each [--sum] [--over] [--leads <P,..|any|FILE>] [--json] <DIR>...\n       \
    ira explain [--json] [<LOGS>]\n       \
    ira explain [--over] [--leads <P,..|any|FILE>] [--json] <LOGS>\n       \
    ira explain --each [--over] [--leads <P,..|any|FILE>] [--json] <DIR>...\n       \
    ira explain (--question <Q> | --ask <SENTENCE>) [--case <K> | --cert <C>] [--json] <LOGS>\n       \
    ira show [OPTIONS] <LOGS>\n       \
    ira draw --out <FILE> [OPTIONS] <LOGS>\n       \
    ira check --question <Q> --cert <C> [--depth <D>] [--json] <LOGS>\n       \
    ira decide (--question <Q> | --ask <SENTENCE>) [--out <C>] [--json] <LOGS>\n       \
    ira pairs <N>\n       \
    ira ask --nodes <N> <SENTENCE>\n       \
    ira ask --dir <DIR> <SENTENCE>\n       \
    ira run --nodes <N> --seed <S> --out <DIR> [OPTIONS]\n       \
    ira upgrade --out <DIR> <LOGS>\n       \
    ira mend --out <DIR> [--start <S>] [--lost <P,..>] <LOGS>\n       \
    ira guide [questions | logs]\n       \
    ira version\n\n\
    LOGS is either <LOG>... or --dir <DIR>";

const NOTE: &str =
    "Without words ira judges the log of one node, on standard input. It prints `yes`, or `no` and\n\
    the first reason. The status is 0 for yes, absent cases, an elected leader, upgraded or mended\n\
    logs; 1 for no, a yes whose election isn't as --over or --leads asks, a present case or a run\n\
    without leader; 2 for refused words, a refused ring, a failed read or write; 3 out of memory.";

const TEXT: ValueParser = ValueParser::String;

const FOLDER: ValueParser = ValueParser::NonEmptyString;

const NUMBER: ValueParser = ValueParser::Unsigned(0, u64::MAX);

const UP_TO_4: ValueParser = ValueParser::Unsigned(0, 4);

const UP_TO_100000: ValueParser = ValueParser::Unsigned(0, 100_000);

const JSON_HELP: &str = "Print the answer as JSON, an object a line";

const DIR_HELP: &str = "The folder with the logs 0.log, 1.log and so on, as many as the first says";

const LOG_HELP: &str = "A file with the log of a node, in the order of the ring's places";

const WHY_QUESTION_HELP: &str = "The file with a question: what `decide` finds is explained";

const WHY_CASE_HELP: &str = "The case of the question to explain, from 0; the first 8 if not given";

const WHY_CERT_HELP: &str = "The file with a certificate: the answer of `check` is explained";

const EACH_HELP: &str =
    "The names are those of folders, each with the logs of a ring, and each is judged";

const SUM_HELP: &str =
    "As --each, and below the answers how many of the runs had a tie, a second round and more";

const OVER_HELP: &str =
    "Ask too whether the election is over: if not, lines say so, and the status is 1";

const START_HELP: &str =
    "initiator or passive: what a node is taken for of whose log not even the head is left";

const TOPIC_HELP: &str =
    "questions or logs: how a question or a log is written, with examples; the commands if not given";

const LOST_HELP: &str =
    "The places of the logs that are lost, as 1,2; if not given none of LOG.., and any of --dir";

const LEADS_HELP: &str =
    "Who is to lead at the end: places, as 1,2, and no other; any: some node; or a file with a place a line";

const AT_HELP: &str = "The moment when each node has made so many events, by place, as 2,3";

const MET_QUESTION_HELP: &str =
    "The file with a question: the first moment that meets a case of it";

const MET_CASE_HELP: &str =
    "The case of the question, from 0; the first that is present if not given";

const EVENTS_HELP: &str = "Print an order of all events in place of the tables";

const PICTURE_HELP: &str = "The file for the picture: SVG, or a page if it ends in .html";

const FROM_HELP: &str = "The column that the picture begins with; the first if not given";

const TO_HELP: &str = "The column that the picture ends with; the last if not given";

const QUESTION_HELP: &str = "The file with the question";

const ASK_HELP: &str =
    "In place of the file with the question: a sentence that stands for it, as `ira ask` takes";

const CERT_HELP: &str = "The file with the certificate";

const DEPTH_HELP: &str = "How often the steps of a section are halved among threads, 0 to 4";

const MADE_CERT_HELP: &str =
    "The file for the certificate, which is made where all cases are absent";

const NODES_HELP: &str = "How many nodes the ring has, 2 to 255";

const SENTENCE_HELP: &str =
    "What nodes are like at once, as 'any leader, other choosing'; see `ira guide questions`";

const SEED_HELP: &str = "The number that all draws come from";

const OUT_HELP: &str = "The folder for the logs 0.log, 1.log and so on, made if there is none";

const INITIATORS_HELP: &str = "How many nodes begin, from node 0 on; all if not given";

const DRAWS_HELP: &str = "How many IDs each node is given to draw, 0 to 100000";

const CAP_HELP: &str = "The most records of a log, 1 to 100000";

const TERMS_HELP: &str = "How many terms, 1 to 1000000; each leader but the last yields";

const ALONE_HELP: &str = "Run all nodes on one thread";

const JSON: Argument = Argument("json", Flag, Optional, JSON_HELP);

const DIR: Argument = Argument("dir", Value("DIR", FOLDER), Optional, DIR_HELP);

const LOG: Argument = Argument("LOG", Files, Optional, LOG_HELP);

const OUT: Argument = Argument("out", Value("DIR", FOLDER), Required, OUT_HELP);

const OVER: Argument = Argument("over", Flag, Optional, OVER_HELP);

const LEADS: Argument = Argument("leads", Value("P,..|any|FILE", TEXT), Optional, LEADS_HELP);

const AT: Argument = Argument("at", Value("N0,N1,..", TEXT), Optional, AT_HELP);

const MET_QUESTION: Argument = Argument("question", Value("Q", TEXT), Optional, MET_QUESTION_HELP);

const ASK: Argument = Argument("ask", Value("SENTENCE", TEXT), Optional, ASK_HELP);

const MET_CASE: Argument = Argument("case", Value("K", NUMBER), Optional, MET_CASE_HELP);

const COMMANDS: &[CommandEntry] = &[
    CommandEntry {
        name: "logs",
        about: "Judges the logs of all nodes of a ring together",
        arguments: &[
            Argument("each", Flag, Optional, EACH_HELP),
            Argument("sum", Flag, Optional, SUM_HELP),
            OVER,
            LEADS,
            JSON,
            DIR,
            LOG,
        ],
    },
    CommandEntry {
        name: "explain",
        about: "Judges logs, or one log on standard input, and says why the answer is so",
        arguments: &[
            Argument("each", Flag, Optional, EACH_HELP),
            OVER,
            LEADS,
            Argument("question", Value("Q", TEXT), Optional, WHY_QUESTION_HELP),
            ASK,
            Argument("case", Value("K", NUMBER), Optional, WHY_CASE_HELP),
            Argument("cert", Value("C", TEXT), Optional, WHY_CERT_HELP),
            JSON,
            DIR,
            LOG,
        ],
    },
    CommandEntry {
        name: "show",
        about: "Shows what happened, at the end of the logs or at another moment",
        arguments: &[
            LEADS,
            AT,
            MET_QUESTION,
            ASK,
            MET_CASE,
            Argument("events", Flag, Optional, EVENTS_HELP),
            JSON,
            DIR,
            LOG,
        ],
    },
    CommandEntry {
        name: "draw",
        about: "Draws what happened, as a space-time diagram: an SVG file or a page",
        arguments: &[
            Argument("out", Value("FILE", TEXT), Required, PICTURE_HELP),
            AT,
            MET_QUESTION,
            ASK,
            MET_CASE,
            Argument("from", Value("A", NUMBER), Optional, FROM_HELP),
            Argument("to", Value("B", NUMBER), Optional, TO_HELP),
            DIR,
            LOG,
        ],
    },
    CommandEntry {
        name: "check",
        about: "Judges logs together with a certificate that no moment met a case of a question",
        arguments: &[
            Argument("question", Value("Q", TEXT), Required, QUESTION_HELP),
            Argument("cert", Value("C", TEXT), Required, CERT_HELP),
            Argument("depth", Value("D", UP_TO_4), Default("2"), DEPTH_HELP),
            JSON,
            DIR,
            LOG,
        ],
    },
    CommandEntry {
        name: "decide",
        about: "Decides for each case of a question whether some moment of the logged run met it",
        arguments: &[
            Argument("question", Value("Q", TEXT), Optional, QUESTION_HELP),
            ASK,
            Argument("out", Value("C", TEXT), Optional, MADE_CERT_HELP),
            JSON,
            DIR,
            LOG,
        ],
    },
    CommandEntry {
        name: "pairs",
        about: "Prints the question whether two nodes of a ring ever lead at once",
        arguments: &[Argument("N", Word(NUMBER), Required, NODES_HELP)],
    },
    CommandEntry {
        name: "ask",
        about: "Prints the question whether a sentence on the nodes of a ring ever holds",
        arguments: &[
            Argument("nodes", Value("N", NUMBER), Optional, NODES_HELP),
            DIR,
            Argument("SENTENCE", Word(TEXT), Required, SENTENCE_HELP),
        ],
    },
    CommandEntry {
        name: "run",
        about: "Runs an election, and writes the log of each node to a file",
        arguments: &[
            Argument("nodes", Value("N", NUMBER), Required, NODES_HELP),
            Argument("seed", Value("S", NUMBER), Required, SEED_HELP),
            OUT,
            Argument("initiators", Value("M", NUMBER), Optional, INITIATORS_HELP),
            Argument("draws", Value("K", UP_TO_100000), Default("64"), DRAWS_HELP),
            Argument("cap", Value("C", NUMBER), Default("10000"), CAP_HELP),
            Argument("terms", Value("T", NUMBER), Default("1"), TERMS_HELP),
            Argument("alone", Flag, Optional, ALONE_HELP),
        ],
    },
    CommandEntry {
        name: "upgrade",
        about: "Writes the logs of all nodes of a ring in version 2, each to a file",
        arguments: &[OUT, DIR, LOG],
    },
    CommandEntry {
        name: "mend",
        about: "Writes of each log of a ring the longest beginning such that all are consistent",
        arguments: &[
            OUT,
            Argument("start", Value("S", TEXT), Optional, START_HELP),
            Argument("lost", Value("P,..", TEXT), Optional, LOST_HELP),
            DIR,
            LOG,
        ],
    },
    CommandEntry {
        name: "guide",
        about: "Says what the commands are, or how questions or logs are written",
        arguments: &[Argument("TOPIC", Word(TEXT), Optional, TOPIC_HELP)],
    },
    CommandEntry {
        name: "version",
        about: "Prints which version this is, and what proved it",
        arguments: &[],
    },
];

/// The program's command line.
fn command<'a>(alloc: Global) -> Result<Command<'a>, AllocError>
    ensures { IfOk result (λ c. app_of c ≡ ira_app) }
{
    with_commands(alloc, top_command(alloc)?, COMMANDS)
}

/// The command with these below it.
fn with_commands<'a>(
    alloc: Global,
    mut command: Command<'a>,
    entries: &[CommandEntry],
) -> Result<Command<'a>, AllocError>
    ensures { IfOk result (λ c. app_of c ≡ fold with_entry (app_of command.entry) entries.now) }
{
    for entry in entries {
        command = command.subcommand(entry.command(alloc)?)?;
    }
    Ok(command)
}

/// The program's command line without its commands.
fn top_command<'a>(alloc: Global) -> Result<Command<'a>, AllocError>
    ensures { IfOk result (λ c. app_of c ≡ ira_top) }
{
    let command = Command::new(alloc, "ira")
        .no_binary_name(true)
        .bin_name("ira")?;
    Ok(
        command
            .about("Judges and makes logs of Itai-Rodeh elections on anonymous rings.")
            .override_usage(USAGE)
            .after_help(NOTE)
            .subcommand_required(true),
    )
}

/// Where logs come from, if any are named. They aren't named twice.
fn found_logs<'a>(
    alloc: Global,
    matches: &ArgMatches<'a>,
) -> Result<Option<LogSource<'a>>, OptionsFault>
    ensures found { IfOk result (MayHaveLogs (rows_of (found_of matches.now))) }
    ensures refused { IfErr result (λ why. MayNameLogs (rows_of (found_of matches.now)) → why ≡ options.OutOfMemory) }
{
    match text(matches, "dir") {
        None => match names(matches, "LOG") {
            None => Ok(None),
            Some([]) => Err(OptionsFault::Missing),
            Some(names) => Ok(Some(LogSource::Files(names.to_vec(alloc)?))),
        },
        Some(folder) => match names(matches, "LOG") {
            None => Ok(Some(LogSource::Folder(folder))),
            Some(_) => Err(OptionsFault::Sources),
        },
    }
}

/// Where the logs come from, which are named.
fn log_source<'a>(alloc: Global, matches: &ArgMatches<'a>) -> Result<LogSource<'a>, OptionsFault>
    ensures found { IfOk result (HasLogs (rows_of (found_of matches.now))) }
    ensures refused { IfErr result (λ why. NamesLogs (rows_of (found_of matches.now)) → why ≡ options.OutOfMemory) }
{
    match found_logs(alloc, matches)? {
        Some(source) => Ok(source),
        None => Err(OptionsFault::Sources),
    }
}

/// The folders with the logs to judge, which are named.
fn folders<'a>(alloc: Global, matches: &ArgMatches<'a>) -> Result<Vec<&'a str>, OptionsFault>
    ensures found { IfOk result (λ folders. HasFolders (rows_of (found_of matches.now)) folders.items) }
    ensures refused { IfErr result (λ why. NamesFolders (rows_of (found_of matches.now)) → why ≡ options.OutOfMemory) }
{
    match text(matches, "dir") {
        None => match names(matches, "LOG") {
            None => Err(OptionsFault::Folders),
            Some([]) => Err(OptionsFault::Missing),
            Some(names) if names.contains(&"") => Err(OptionsFault::EmptyFolder),
            Some(names) => Ok(names.to_vec(alloc)?),
        },
        Some(_) => Err(OptionsFault::Folders),
    }
}

/// Where the question comes from, if one is named. It isn't named twice.
fn question_source<'a>(matches: &ArgMatches<'a>) -> Result<Option<QuestionSource<'a>>, OptionsFault>
    ensures found { IfOk result (MayHaveSource (rows_of (found_of matches.now))) }
    ensures refused { IfErr result (λ why. MayNameQuestion (rows_of (found_of matches.now)) → ⊥) }
{
    match text(matches, "question") {
        None => match text(matches, "ask") {
            None => Ok(None),
            Some(sentence) => Ok(Some(QuestionSource::Sentence(sentence))),
        },
        Some(name) => match text(matches, "ask") {
            None => Ok(Some(QuestionSource::File(name))),
            Some(_) => Err(OptionsFault::Question),
        },
    }
}

/// What is expected of the election.
fn expectation<'a>(alloc: Global, matches: &ArgMatches<'a>) -> Result<Expectation<'a>, OptionsFault>
    ensures found { IfOk result (HasExpectation (rows_of (found_of matches.now))) }
    ensures refused { IfErr result (λ why. why ≡ options.OutOfMemory) }
{
    Ok(Expectation {
        is_over: flag(matches, "over"),
        leaders: asked_leaders(alloc, matches)?,
    })
}

/// The logs to judge, together or those of each folder.
fn logs<'a>(alloc: Global, matches: &ArgMatches<'a>) -> Result<Request<'a>, OptionsFault>
    ensures asked { IfOk result (AsksLogs (rows_of (found_of matches.now))) }
    ensures refused { IfErr result
        (λ why. NamesLogsToJudge (rows_of (found_of matches.now)) → why ≡ options.OutOfMemory) }
{
    let is_json = flag(matches, "json");
    let expected = expectation(alloc, matches)?;
    let is_summed = flag(matches, "sum");
    if is_summed || flag(matches, "each") {
        return Ok(Request::Each(EachRequest {
            is_json,
            expected,
            detail: FolderDetail::Line,
            is_summed,
            folders: folders(alloc, matches)?,
        }));
    }
    Ok(Request::Logs(LogsRequest {
        is_json,
        expected,
        logs: log_source(alloc, matches)?,
    }))
}

/// The answers to explain: that of logs, or those of each folder.
fn explain<'a>(alloc: Global, matches: &ArgMatches<'a>) -> Result<Request<'a>, OptionsFault>
    ensures asked { IfOk result (AsksReasons (rows_of (found_of matches.now))) }
    ensures refused { IfErr result
        (λ why. NamesAnswers (rows_of (found_of matches.now)) → why ≡ options.OutOfMemory) }
{
    let is_json = flag(matches, "json");
    if !flag(matches, "each") {
        return Ok(Request::Explain(ExplainRequest {
            answer: explained_answer(alloc, matches)?,
            is_json,
        }));
    }
    if question_source(matches)?.is_some()
        || number(matches, "case")?.is_some()
        || text(matches, "cert").is_some()
    {
        return Err(OptionsFault::EachAndQuestion);
    }
    Ok(Request::Each(EachRequest {
        is_json,
        expected: expectation(alloc, matches)?,
        detail: FolderDetail::Reasons,
        is_summed: false,
        folders: folders(alloc, matches)?,
    }))
}

/// The answer to explain.
fn explained_answer<'a>(
    alloc: Global,
    matches: &ArgMatches<'a>,
) -> Result<ExplainedAnswer<'a>, OptionsFault>
    ensures asked { IfOk result (HasAnswer (rows_of (found_of matches.now))) }
    ensures refused { IfErr result (λ why. NamesAnswer (rows_of (found_of matches.now)) → why ≡ options.OutOfMemory) }
{
    match question_source(matches)? {
        None => match number(matches, "case")? {
            Some(_) => Err(OptionsFault::CaseWithoutQuestion),
            None => match text(matches, "cert") {
                Some(_) => Err(OptionsFault::CertificateWithoutQuestion),
                None => explained_logs(alloc, matches),
            },
        },
        Some(_) if flag(matches, "over") || text(matches, "leads").is_some() => {
            Err(OptionsFault::ExpectationAndQuestion)
        }
        Some(question) => match text(matches, "cert") {
            None => Ok(ExplainedAnswer::Findings {
                asked: CaseSelection {
                    question,
                    case: number(matches, "case")?,
                },
                logs: log_source(alloc, matches)?,
            }),
            Some(certificate) => match number(matches, "case")? {
                Some(_) => Err(OptionsFault::CaseAndCertificate),
                None => Ok(ExplainedAnswer::Certificate {
                    question,
                    certificate,
                    logs: log_source(alloc, matches)?,
                }),
            },
        },
    }
}

/// The answer to explain, where no question is named.
fn explained_logs<'a>(
    alloc: Global,
    matches: &ArgMatches<'a>,
) -> Result<ExplainedAnswer<'a>, OptionsFault>
    requires { AsksNothing (rows_of (found_of matches.now)) }
    ensures asked { IfOk result (HasAnswer (rows_of (found_of matches.now))) }
    ensures refused { IfErr result (λ why. NamesAnswer (rows_of (found_of matches.now)) → why ≡ options.OutOfMemory) }
{
    let expected = expectation(alloc, matches)?;
    match found_logs(alloc, matches)? {
        Some(logs) => Ok(ExplainedAnswer::Logs { expected, logs }),
        None if expected.is_over || expected.leaders.is_some() => Err(OptionsFault::Sources),
        None => Ok(ExplainedAnswer::OneLog),
    }
}

/// Numbers with commas between them.
fn numbers(alloc: Global, text: &str) -> Result<Vec<u64>, OptionsFault>
    ensures read { IfOk result (λ ns. AreNumbers ns.items (parts_of text.now)) }
    ensures refused { IfErr result (λ why. WritesNumbers text.now → why ≡ options.OutOfMemory) }
{
    let mut numbers = Vec::new(alloc);
    for part in text.split(',') {
        match part.parse() {
            Ok(number) => {
                if numbers.push(number).is_err() {
                    return Err(OptionsFault::OutOfMemory);
                }
            }
            Err(_) => return Err(OptionsFault::NoNumbers),
        }
    }
    Ok(numbers)
}

/// Who is to lead, if that is asked.
fn asked_leaders<'a>(
    alloc: Global,
    matches: &ArgMatches<'a>,
) -> Result<Option<AskedLeaders<'a>>, OptionsFault>
    ensures found { IfOk result (HasLeaders (rows_of (found_of matches.now))) }
    ensures refused { IfErr result (λ why. why ≡ options.OutOfMemory) }
{
    match text(matches, "leads") {
        None => Ok(None),
        Some("any") => Ok(Some(AskedLeaders::Any)),
        Some(text) => match numbers(alloc, text) {
            Ok(places) => Ok(Some(AskedLeaders::Places(places))),
            Err(OptionsFault::OutOfMemory) => Err(OptionsFault::OutOfMemory),
            Err(_) => Ok(Some(AskedLeaders::File(text))),
        },
    }
}

/// The moment that is named, the end if none is.
fn asked_moment<'a>(
    alloc: Global,
    matches: &ArgMatches<'a>,
) -> Result<AskedMoment<'a>, OptionsFault>
    ensures asked { IfOk result (HasMoment (rows_of (found_of matches.now))) }
    ensures refused { IfErr result (λ why. NamesMoment (rows_of (found_of matches.now)) → why ≡ options.OutOfMemory) }
{
    match question_source(matches)? {
        None => match number(matches, "case")? {
            Some(_) => Err(OptionsFault::CaseWithoutQuestion),
            None => match text(matches, "at") {
                None => Ok(AskedMoment::AtEnd),
                Some(cut) => Ok(AskedMoment::AtCut(numbers(alloc, cut)?)),
            },
        },
        Some(question) => match text(matches, "at") {
            None => Ok(AskedMoment::OfQuestion(CaseSelection {
                question,
                case: number(matches, "case")?,
            })),
            Some(_) => Err(OptionsFault::CutAndQuestion),
        },
    }
}

/// The logs to show, and how.
fn show<'a>(alloc: Global, matches: &ArgMatches<'a>) -> Result<ShowRequest<'a>, OptionsFault>
    ensures asked { IfOk result (HasLogsToShow (rows_of (found_of matches.now))) }
    ensures refused { IfErr result
        (λ why. NamesLogsToShow (rows_of (found_of matches.now)) → why ≡ options.OutOfMemory) }
{
    let leads = asked_leaders(alloc, matches)?;
    let moment = asked_moment(alloc, matches)?;
    let logs = log_source(alloc, matches)?;
    Ok(ShowRequest {
        leads,
        moment,
        has_events: flag(matches, "events"),
        is_json: flag(matches, "json"),
        logs,
    })
}

/// The logs to draw, and how.
fn draw<'a>(alloc: Global, matches: &ArgMatches<'a>) -> Result<DrawRequest<'a>, OptionsFault>
    ensures asked { IfOk result (HasLogsToDraw (rows_of (found_of matches.now))) }
    ensures refused { IfErr result
        (λ why. NamesLogsToDraw (rows_of (found_of matches.now)) → why ≡ options.OutOfMemory) }
{
    let moment = asked_moment(alloc, matches)?;
    let logs = log_source(alloc, matches)?;
    Ok(DrawRequest {
        picture: given_text(matches, "out")?,
        moment,
        from: number(matches, "from")?,
        to: number(matches, "to")?,
        logs,
    })
}

/// The files to judge.
fn check<'a>(alloc: Global, matches: &ArgMatches<'a>) -> Result<CheckRequest<'a>, OptionsFault>
    ensures asked { IfOk result (HasFiles (rows_of (found_of matches.now))) }
    ensures refused { IfErr result (λ why. NamesFiles (rows_of (found_of matches.now)) → why ≡ options.OutOfMemory) }
{
    let logs = log_source(alloc, matches)?;
    Ok(CheckRequest {
        question: given_text(matches, "question")?,
        certificate: given_text(matches, "cert")?,
        depth: given_number(matches, "depth", 4)? as u8,
        is_json: flag(matches, "json"),
        logs,
    })
}

/// The files to decide of.
fn decide<'a>(alloc: Global, matches: &ArgMatches<'a>) -> Result<DecideRequest<'a>, OptionsFault>
    ensures asked { IfOk result (HasFilesToDecide (rows_of (found_of matches.now))) }
    ensures refused { IfErr result (λ why. NamesFilesToDecide (rows_of (found_of matches.now)) → why ≡ options.OutOfMemory) }
{
    let Some(question) = question_source(matches)? else {
        return Err(OptionsFault::Question);
    };
    let logs = log_source(alloc, matches)?;
    Ok(DecideRequest {
        question,
        certificate: text(matches, "out"),
        is_json: flag(matches, "json"),
        logs,
    })
}

/// How many nodes the ring has that is asked about.
fn asked_size<'a>(matches: &ArgMatches<'a>) -> Result<AskedSize<'a>, OptionsFault>
    ensures found { IfOk result (HasSize (rows_of (found_of matches.now))) }
    ensures refused { IfErr result (λ why. NamesSize (rows_of (found_of matches.now)) → ⊥) }
{
    match number(matches, "nodes")? {
        None => match text(matches, "dir") {
            None => Err(OptionsFault::Size),
            Some(folder) => Ok(AskedSize::Folder(folder)),
        },
        Some(nodes) => match text(matches, "dir") {
            None => Ok(AskedSize::Nodes(nodes)),
            Some(_) => Err(OptionsFault::Size),
        },
    }
}

/// The sentence whose question is asked for.
fn ask<'a>(matches: &ArgMatches<'a>) -> Result<AskRequest<'a>, OptionsFault>
    ensures asked { IfOk result (HasSentence (rows_of (found_of matches.now))) }
    ensures refused { IfErr result (λ why. NamesSentence (rows_of (found_of matches.now)) → ⊥) }
{
    Ok(AskRequest {
        size: asked_size(matches)?,
        sentence: given_text(matches, "SENTENCE")?,
    })
}

/// The ring to run.
fn run<'a>(matches: &ArgMatches<'a>) -> Result<RunRequest<'a>, OptionsFault>
    ensures asked { IfOk result (HasOptions (rows_of (found_of matches.now))) }
    ensures refused { IfErr result (λ why. NamesOptions (rows_of (found_of matches.now)) → ⊥) }
{
    Ok(RunRequest {
        nodes: given_number(matches, "nodes", u64::MAX)?,
        seed: given_number(matches, "seed", u64::MAX)?,
        folder: given_text(matches, "out")?,
        initiators: number(matches, "initiators")?,
        draws: given_number(matches, "draws", 100_000)? as u32,
        cap: given_number(matches, "cap", u64::MAX)?,
        terms: given_number(matches, "terms", u64::MAX)?,
        is_alone: flag(matches, "alone"),
    })
}

/// The files to write anew.
fn rewrite<'a>(alloc: Global, matches: &ArgMatches<'a>) -> Result<RewriteRequest<'a>, OptionsFault>
    ensures asked { IfOk result (HasFilesToRewrite (rows_of (found_of matches.now))) }
    ensures refused { IfErr result (λ why. NamesFilesToRewrite (rows_of (found_of matches.now)) → why ≡ options.OutOfMemory) }
{
    let logs = log_source(alloc, matches)?;
    Ok(RewriteRequest {
        folder: given_text(matches, "out")?,
        logs,
    })
}

/// Whether a node of whose log no head is left is taken for an initiator.
fn is_initiator(matches: &ArgMatches) -> Result<bool, OptionsFault>
    ensures found { IfOk result (SaysStart (rows_of (found_of matches.now))) }
    ensures refused { IfErr result (λ why. NamesStart (rows_of (found_of matches.now)) → ⊥) }
{
    match text(matches, "start") {
        None | Some("initiator") => Ok(true),
        Some("passive") => Ok(false),
        Some(_) => Err(OptionsFault::Start),
    }
}

/// The places of the logs that are lost, if they are named.
fn lost_places<'a>(
    alloc: Global,
    matches: &ArgMatches<'a>,
) -> Result<Option<Vec<u64>>, OptionsFault>
    ensures found { IfOk result
        (λ lost. HasLost (rows_of (found_of matches.now)) (option_map (λ places. places.items) lost)) }
    ensures refused { IfErr result
        (λ why. ListsNumbers (codes "lost") (rows_of (found_of matches.now)) → why ≡ options.OutOfMemory) }
{
    match text(matches, "lost") {
        None => Ok(None),
        Some(text) => Ok(Some(numbers(alloc, text)?)),
    }
}

/// The logs to mend.
fn mend<'a>(alloc: Global, matches: &ArgMatches<'a>) -> Result<MendRequest<'a>, OptionsFault>
    ensures asked { IfOk result (HasLogsToMend (rows_of (found_of matches.now))) }
    ensures refused { IfErr result
        (λ why. NamesLogsToMend (rows_of (found_of matches.now)) → why ≡ options.OutOfMemory) }
{
    let is_initiator = is_initiator(matches)?;
    let lost = lost_places(alloc, matches)?;
    let logs = log_source(alloc, matches)?;
    Ok(MendRequest {
        folder: given_text(matches, "out")?,
        is_initiator,
        lost,
        logs,
    })
}

/// What the guide that is asked for is on.
fn guide_topic(matches: &ArgMatches) -> Result<GuideTopic, OptionsFault>
    ensures found { IfOk result (HasTopic (rows_of (found_of matches.now))) }
    ensures refused { IfErr result (λ why. NamesTopic (rows_of (found_of matches.now)) → ⊥) }
{
    match text(matches, "TOPIC") {
        None => Ok(GuideTopic::Commands),
        Some("questions") => Ok(GuideTopic::Questions),
        Some("logs") => Ok(GuideTopic::Logs),
        Some(_) => Err(OptionsFault::Topic),
    }
}

// What is asked for after the command of this name, by what was found of the words.
fn found_request<'a>(
    alloc: Global,
    name: &str,
    matches: &ArgMatches<'a>,
) -> Result<Request<'a>, OptionsFault>
    ensures asked { IfOk result (Asks name.now (rows_of (found_of matches.now))) }
    ensures refused { IfErr result (λ why. IsOneOf name.now commands
        → GoTogetherAfter name.now (rows_of (found_of matches.now)) → why ≡ options.OutOfMemory) }
{
    match name {
        "logs" => logs(alloc, matches),
        "explain" => explain(alloc, matches),
        "show" => Ok(Request::Show(show(alloc, matches)?)),
        "draw" => Ok(Request::Draw(draw(alloc, matches)?)),
        "check" => Ok(Request::Check(check(alloc, matches)?)),
        "decide" => Ok(Request::Decide(decide(alloc, matches)?)),
        "pairs" => Ok(Request::Pairs(given_number(matches, "N", u64::MAX)?)),
        "ask" => Ok(Request::Ask(ask(matches)?)),
        "run" => Ok(Request::Run(run(matches)?)),
        "upgrade" => Ok(Request::Upgrade(rewrite(alloc, matches)?)),
        "mend" => Ok(Request::Mend(mend(alloc, matches)?)),
        "guide" => Ok(Request::Guide(guide_topic(matches)?)),
        "version" => Ok(Request::Version),
        _ => Err(OptionsFault::Command),
    }
}

/// The sentence in these words, if they ask about one.
pub fn sentence_in<'a>(alloc: Global, words: &'a [&'a str]) -> Option<&'a str> {
    let matches = command(alloc).ok()?.try_get_matches_from(words).ok()?;
    let (_, found) = matches.subcommand()?;
    text(found, "ask").or(text(found, "SENTENCE"))
}

// What some words ask for.
fn request_of_words<'a>(alloc: Global, words: &'a [&'a str]) -> Result<Request<'a>, Error>
    ensures made { IfOk result (IsMadeOf (map (λ word. word.now) words.now)) }
    ensures refused { IfErr result (λ e. AreAcceptedWords (map (λ word. word.now) words.now)
        → GoTogether (map (λ word. word.now) words.now) → kind_of e ≡ kind.OutOfMemory) }
{
    let matches = command(alloc)?.try_get_matches_from(words)?;
    let asked = match (words.first(), matches.subcommand()) {
        (Some(name), Some((_, found))) => found_request(alloc, name, found),
        _ => Err(OptionsFault::Command),
    };
    match asked {
        Ok(request) => Ok(request),
        Err(why) => Err(command(alloc)?.error(why.kind(), why.text())?),
    }
}

/// The word with each byte that isn't printable as pages show it.
fn shown_word(alloc: Global, word: &str) -> Result<String, AllocError> {
    let mut shown = String::new(alloc);
    for byte in word.bytes() {
        match byte {
            b' '..=b'~' => shown.push(char::from(byte))?,
            b'\t' => shown.push_str("\\t")?,
            b'\r' => shown.push_str("\\r")?,
            _ => write!(shown, "\\x{byte:02x}")?,
        }
    }
    Ok(shown)
}

/// The text of a refusal of these words. They are named there as pages show them, so that no word makes a line of its own.
fn refusal_text(alloc: Global, words: &[&str], refused: &Error) -> Result<String, AllocError> {
    let shown = words
        .iter()
        .map(|word| shown_word(alloc, word))
        .try_collect::<Vec<String>>(alloc)?;
    let shown = shown
        .iter()
        .map(|word| word.as_str())
        .collect::<Vec<&str>>(alloc)?;
    match request_of_words(alloc, &shown) {
        Ok(_) => refused.to_string(alloc),
        Err(refused) => refused.to_string(alloc),
    }
}

/// The refusal of these words.
fn refusal(alloc: Global, words: &[&str], refused: &Error) -> WordsFault
    ensures { kind_of refused.now ≡ kind.OutOfMemory → result ≡ fault.OutOfMemory }
{
    if refused.kind() == ErrorKind::OutOfMemory {
        return WordsFault::OutOfMemory;
    }
    match refusal_text(alloc, words, refused) {
        Ok(text) => WordsFault::Refused(text),
        Err(AllocError) => WordsFault::OutOfMemory,
    }
}

/// Whether the words are an option that asks for the version.
fn is_version_option(words: &[&str]) -> bool
    ensures { IsTrue result ↔ IsVersionOption (map (λ word. word.now) words.now) }
{
    match words {
        [word] => *word == "--version" || *word == "-V",
        _ => false,
    }
}

/// What the words after the program's name ask for. Asking for help is refused as well.
pub fn read_words<'a>(alloc: Global, words: &'a [&'a str]) -> Result<Request<'a>, WordsFault>
    ensures none { words.now ≡ [] → result ≡ Ok request.OneLog }
    ensures version { IsVersionOption (map (λ word. word.now) words.now) → result ≡ Ok request.Version }
    ensures made { IfOk result (IsMadeOf (map (λ word. word.now) words.now)) }
    ensures refused { IfErr result (MayBeRefused (map (λ word. word.now) words.now)) }
{
    if words.is_empty() {
        return Ok(Request::OneLog);
    }
    if is_version_option(words) {
        return Ok(Request::Version);
    }
    match request_of_words(alloc, words) {
        Ok(request) => Ok(request),
        Err(refused) => Err(refusal(alloc, words, &refused)),
    }
}
