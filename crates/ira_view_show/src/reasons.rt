ghost use Rattle.std.specs.Prelude.{◌≡◌, ◌<◌, IfOk, length, option_map};
ghost use Rattle.ira_view_moment.specs.Rounds.{drawn};
ghost use Rattle.ira_view_page.specs.Page.{Added};
ghost use Rattle.ira_view_page.specs.Printable.{IsPrintable};
ghost use Rattle.ira_view_show.specs.Reasons.{AddsDraw, AddsReasonAt, AreReasonsBelow, drew_text, other_of};
ghost use Rattle.ira_view_show.specs.Reasons.{reason_text, receipt_text, return_words};

use crate::leaders::{is_leader, is_named};
use crate::own_receipt::{OwnReceipt, last_own_receipt};
use ira_event::{Event, Load, Logs, Msg, OutOfMemory};
use ira_view_moment::{Moment, Round, Rounds};
use ira_view_page::{Emphasis, NamedText, Page, PageText, file_of};
use std::alloc::Allocator;

/// What the last return of its own pair, with this message, says of a node of a ring of so many, which leads or doesn't.
fn return_words(nodes: u8, leads: bool, message: Msg) -> &'static str
    ensures words { result.now ≡ return_words nodes leads message }
    ensures printable { IsPrintable result.now }
{
    if leads {
        ": its own pair is back with hop N and clean, so it leads:"
    } else if message.hop < u32::from(nodes) {
        ": its own pair came with a hop below N, so somebody else has it too:"
    } else if message.dirty {
        ": its own pair is back with hop N and dirty, so it chooses again:"
    } else {
        ": its own pair was back with hop N and clean, so it led, and it has yielded since:"
    }
}

/// Adds that, with the receipt and the line of its file.
fn print_receipt<A: Allocator>(
    page: &mut Page<A>,
    file: &str,
    nodes: u8,
    leads: bool,
    receipt: Option<OwnReceipt>,
)
    ensures { Added page.old (receipt_text file.now nodes leads receipt) page.new }
{
    match receipt {
        None => page.words(": its own pair never came back"),
        Some(OwnReceipt { position, message }) => {
            page.words(return_words(nodes, leads, message));
            page.end();
            page.begin(Emphasis::Named);
            page.record(file, position, Event::Got(Load::Msg(message)));
        }
    }
}

/// Adds why a node leads or doesn't, by the last receipt of its own pair.
fn print_reason<A: Allocator>(
    page: &mut Page<A>,
    file: &str,
    nodes: u8,
    place: u8,
    leads: bool,
    receipt: Option<OwnReceipt>,
)
    ensures { Added page.old (reason_text file.now nodes place leads receipt) page.new }
{
    page.numbered("  node ", u32::from(place));
    print_receipt(page, file, nodes, leads, receipt);
    page.end();
}

/// The first other place that drew the greatest ID of the round, if there is one.
fn other_in<R: Allocator>(round: &Round<R>, place: u8) -> Option<&u8>
    ensures { option_map (λ other. other.now) result ≡ other_of place (drawn round.now) }
{
    round.greatest_of.iter().find(|other| **other != place)
}

/// Adds what the node drew in the round, and who else drew the greatest ID there, if somebody did.
fn print_drew<A: Allocator, R: Allocator>(page: &mut Page<A>, round: &Round<R>, place: u8, id: u32)
    ensures { Added page.old (drew_text place id (drawn round.now)) page.new }
{
    match other_in(round, place) {
        Some(other) if id == round.greatest => {
            page.numbered("  nodes ", place as u32);
            page.numbered(" and ", *other as u32);
            page.numbered(" both drew ", id);
            page.words(" in ");
            page.round(round.number, round.term);
        }
        Some(other) => {
            page.numbered("  node ", place as u32);
            page.numbered(" drew ", id);
            page.words(" in ");
            page.round(round.number, round.term);
            page.numbered(", where node ", *other as u32);
            page.numbered(" drew ", round.greatest);
        }
        None => {
            page.numbered("  node ", place as u32);
            page.numbered(" drew ", id);
            page.words(" in ");
            page.round(round.number, round.term);
            page.words(", where nobody else drew as much");
        }
    }
}

/// Adds that of the last round in which the node drew, if there is one.
fn print_draw<A: Allocator, R: Allocator>(page: &mut Page<A>, rounds: &Rounds<R>, place: u8)
    ensures { AddsDraw rounds.now place page.old page.new }
{
    let rounds = rounds.as_slice();
    for k in (0..rounds.len()).rev() {
        let round = &rounds[k];
        for draw in &round.draws {
            if draw.0 == place {
                print_drew(page, round, place, draw.1);
                page.end();
                return;
            }
        }
    }
}

/// Adds that of a node which leads and isn't named, or is named and doesn't lead.
fn print_reason_at<A: Allocator, L: Allocator, M: Allocator, R: Allocator>(
    page: &mut Page<A>,
    files: &[NamedText<'_>],
    logs: &Logs<L>,
    moment: &Moment<M>,
    rounds: &Rounds<R>,
    named: &[u64],
    place: u8,
)
    requires places { length moment.now.nodes ≡ length logs.now }
    requires place { place < length logs.now }
    ensures { AddsReasonAt files.now logs.now moment.now rounds.now named.now place page.old page.new }
{
    let leads = is_leader(moment.node(place).state.phase);
    if leads != is_named(named, place) {
        let receipt = last_own_receipt(logs.log(place));
        let file = file_of(files, place);
        print_reason(page, file, logs.size().get(), place, leads, receipt);
        print_draw(page, rounds, place);
    }
}

/// Why nodes lead or don't of which a ring says otherwise than its logs, which are in these files, at the moment, up to which
/// they have these rounds: the rule, the last time that the own pair of each came back, and what it drew last.
pub fn explain_leads<A: Allocator + Clone, L: Allocator, M: Allocator, R: Allocator>(
    alloc: A,
    files: &[NamedText<'_>],
    logs: &Logs<L>,
    moment: &Moment<M>,
    rounds: &Rounds<R>,
    named: &[u64],
) -> Result<PageText<A>, OutOfMemory>
    requires { length moment.now.nodes ≡ length logs.now }
    ensures { IfOk result (AreReasonsBelow files.now logs.now moment.now rounds.now named.now) }
{
    let mut reasons = Page::new(alloc.clone()?);
    for place in 0..moment.size() {
        print_reason_at(&mut reasons, files, logs, moment, rounds, named, place);
    }
    let reasons = reasons.finish()?;
    if reasons.is_empty() {
        return Ok(reasons);
    }
    let mut page = Page::after_answer(alloc);
    page.words(
        "  A node leads once its own pair, its round and its ID, is back with hop N and clean. N is ",
    );
    page.number(moment.size() as u64);
    page.words(".\n");
    page.words(reasons.as_str());
    page.finish()
}
