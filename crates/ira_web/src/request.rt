ghost use Rattle.std.specs.Prelude.{◌≡◌, ◌++◌, ◌∷◌, IfSome};
ghost use Rattle.ira_web.specs.Request.{AreColumns, HasValues, json_values, lines_values, question_value};
ghost use Rattle.ira_web.specs.Spelling.{leaders_values, moment_values, run_values};

use ira_commands::{
    AskedRun, LinesForm, LogsCommand, Overview, OverviewQuestion, RingForm, RingLeaders, RingMoment,
};
use ira_view::Form;
use ira_view_picture::ColumnRange;

// The numbers of requests. The page, the library for other languages and its check name them in this order too.
const LOG: u64 = 0;

const LOGS: u64 = 1;

const EXPLAIN_LOG: u64 = 2;

const EXPLAIN: u64 = 3;

const EXPLAIN_QUESTION: u64 = 4;

const EXPLAIN_CERT: u64 = 5;

const SHOW: u64 = 6;

const EVENTS: u64 = 7;

const DRAW: u64 = 8;

const DECIDE: u64 = 9;

const CHECK: u64 = 10;

const PAIRS: u64 = 11;

const UPGRADE: u64 = 12;

const MEND: u64 = 13;

const RUN: u64 = 14;

const PAGE: u64 = 15;

const JSON: u64 = 16;

const LEADERS: u64 = 17;

const OVERVIEW: u64 = 18;

const ASK: u64 = 19;

// In place of how many nodes are to lead: any node.
const ANY: u64 = u64::MAX;

// What begins a moment that isn't the end of the logs.
const AT_CUT: u64 = 1;

const OF_QUESTION: u64 = 2;

/// The moment of these values, if they are those of one.
fn moment_of(values: &[u64]) -> Option<RingMoment<'_>>
    ensures { IfSome result (λ moment. moment_values moment ≡ values.now) }
{
    match values {
        [] => Some(RingMoment::AtEnd),
        [AT_CUT, events @ ..] => Some(RingMoment::AtCut(events)),
        [OF_QUESTION] => Some(RingMoment::OfQuestion(None)),
        [OF_QUESTION, case] => Some(RingMoment::OfQuestion(Some(*case))),
        _ => None,
    }
}

/// The run of these values, if they are those of one.
fn run_of(values: &[u64]) -> Option<AskedRun>
    ensures { IfSome result (λ asked. run_values asked ≡ values.now) }
{
    let [nodes, initiators, seed, draws, cap, terms] = values else {
        return None;
    };
    Some(AskedRun {
        nodes: *nodes,
        initiators: *initiators,
        seed: *seed,
        draws: u32::try_from(*draws).ok()?,
        cap: *cap,
        terms: *terms,
    })
}

/// The columns from one to another.
fn columns(from: u64, to: u64) -> ColumnRange
    ensures { AreColumns result from to }
{
    ColumnRange {
        from: Some(from),
        to: Some(to),
    }
}

/// What an overview tells of a question by this number, if it is one of these.
fn question_of(number: u64) -> Option<OverviewQuestion>
    ensures { IfSome result (λ question. question_value question ≡ number) }
{
    match number {
        0 => Some(OverviewQuestion::NotAsked),
        1 => Some(OverviewQuestion::Decided),
        2 => Some(OverviewQuestion::Certified),
        _ => None,
    }
}

/// What a page asks for.
#[derive(Clone, Copy)]
pub(crate) enum Request<'v> {
    /// The answer of one log alone.
    OneLog,
    /// The answer of one log alone, and why it is so.
    ExplainLog { form: Form },
    /// A command on the logs of a ring.
    OfLogs(LogsCommand<'v>),
    /// Several of these at once.
    AllOf(Overview<'v>),
    /// The question whether two nodes of a ring of so many ever lead at once.
    Pairs(u64),
    /// The question that a sentence stands for, of a ring of so many nodes.
    Ask(u64),
    /// The logs of a ring in version 2.
    Upgrade,
    /// Of what is left of the logs of a ring the longest beginnings such that all are consistent; whether a node of which
    /// not even a whole head is left is taken for an initiator.
    Mend(bool),
    /// A run of a ring on one thread.
    Run(AskedRun),
}

impl<'v> Request<'v> {
    /// The request of these values, if they are those of one.
    pub(crate) fn of_values(values: &'v [u64]) -> Option<Request<'v>>
        ensures { IfSome result (λ request. HasValues request values.now) }
    {
        match values {
            [LOG] => Some(Request::OneLog),
            [DRAW, from, to, moment @ ..] => Request::picture(*from, *to, moment),
            [DECIDE, 1] => Some(Request::OfLogs(LogsCommand::Decide {
                form: Form::Words,
                is_brief: true,
                certify: true,
            })),
            [PAIRS, nodes] => Some(Request::Pairs(*nodes)),
            [ASK, nodes] => Some(Request::Ask(*nodes)),
            [UPGRADE] => Some(Request::Upgrade),
            [MEND, 0] => Some(Request::Mend(false)),
            [MEND, 1] => Some(Request::Mend(true)),
            [RUN, run @ ..] => Some(Request::Run(run_of(run)?)),
            [PAGE, from, to, moment @ ..] => Request::html(*from, *to, moment),
            [OVERVIEW, question, from, to, moment @ ..] => {
                Request::overview(*question, *from, *to, moment)
            }
            [JSON, told @ ..] => Request::told(Form::Json, told),
            told => Request::told(Form::Words, told),
        }
    }

    /// The request of these values, if they are those of one that is answered for a person or as JSON.
    fn told(form: Form, values: &'v [u64]) -> Option<Request<'v>>
        ensures { IfSome result (λ request. HasValues request (json_values form ++ values.now)) }
    {
        let command = match values {
            [LOGS] => LogsCommand::Answer { form },
            [EXPLAIN_LOG] => return Some(Request::ExplainLog { form }),
            [EXPLAIN] => LogsCommand::Explain { form },
            [EXPLAIN_QUESTION] => LogsCommand::ExplainQuestion { form, case: None },
            [EXPLAIN_QUESTION, case] => LogsCommand::ExplainQuestion {
                form,
                case: Some(*case),
            },
            [EXPLAIN_CERT] => LogsCommand::ExplainCheck { form },
            [LEADERS, count, led @ ..] => return Request::led(form, *count, led),
            [SHOW, moment @ ..] => {
                return Request::lines(form, RingLeaders::NotAsked, false, moment);
            }
            [EVENTS, moment @ ..] => {
                return Request::lines(form, RingLeaders::NotAsked, true, moment);
            }
            [DECIDE] => LogsCommand::Decide {
                form,
                is_brief: false,
                certify: true,
            },
            [CHECK] => LogsCommand::Check { form },
            _ => return None,
        };
        Some(Request::OfLogs(command))
    }

    /// A ring as lines, where so many nodes are to lead, or any.
    fn led(form: Form, count: u64, values: &'v [u64]) -> Option<Request<'v>>
        ensures { IfSome result (λ request. HasValues request (json_values form ++ LEADERS ∷ count ∷ values.now)) }
    {
        let (leaders, lines) = if count == ANY {
            (RingLeaders::Any, values)
        } else {
            let (places, lines) = values.split_at_checked(usize::try_from(count).ok()?)?;
            (RingLeaders::Places(places), lines)
        };
        match lines {
            [SHOW, moment @ ..] => Request::lines(form, leaders, false, moment),
            [EVENTS, moment @ ..] => Request::lines(form, leaders, true, moment),
            _ => None,
        }
    }

    /// A ring as lines, where these are to lead, at the moment of these values, if they are those of one.
    fn lines(
        form: Form,
        leaders: RingLeaders<'v>,
        has_events: bool,
        moment: &'v [u64],
    ) -> Option<Request<'v>>
        ensures { IfSome result (λ request. HasValues request
            ((json_values form ++ leaders_values leaders.entry ++ lines_values has_events) ++ moment.now)) }
    {
        let lines = LinesForm {
            form,
            has_events,
            leaders,
        };
        let command = LogsCommand::Show(RingForm::Lines(lines), moment_of(moment)?);
        Some(Request::OfLogs(command))
    }

    /// A picture from one column to another, at the moment of these values, if they are those of one.
    fn picture(from: u64, to: u64, moment: &'v [u64]) -> Option<Request<'v>>
        ensures { IfSome result (λ request. HasValues request (DRAW ∷ from ∷ to ∷ moment.now)) }
    {
        let form = RingForm::Picture(columns(from, to));
        Some(Request::OfLogs(LogsCommand::Show(form, moment_of(moment)?)))
    }

    /// A page to move in such a picture.
    fn html(from: u64, to: u64, moment: &'v [u64]) -> Option<Request<'v>>
        ensures { IfSome result (λ request. HasValues request (PAGE ∷ from ∷ to ∷ moment.now)) }
    {
        let form = RingForm::Html(columns(from, to));
        Some(Request::OfLogs(LogsCommand::Show(form, moment_of(moment)?)))
    }

    /// An overview that tells this of a question, with a picture from one column to another, at the moment of these values,
    /// if they are those of one.
    fn overview(question: u64, from: u64, to: u64, moment: &'v [u64]) -> Option<Request<'v>>
        ensures { IfSome result (λ request. HasValues request (OVERVIEW ∷ question ∷ from ∷ to ∷ moment.now)) }
    {
        Some(Request::AllOf(Overview {
            question: question_of(question)?,
            columns: columns(from, to),
            moment: moment_of(moment)?,
        }))
    }
}
