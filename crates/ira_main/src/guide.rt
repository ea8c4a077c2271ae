ghost use Rattle.std.specs.Prelude.{◌≡◌};
ghost use Rattle.ira_main.specs.Guide.{guide_text};
ghost use Rattle.ira_main.specs.Outcome.{PrintsLine};
ghost use Rattle.ira_view.specs.declared.status.Status.TheVariants.{Yes};

use crate::delivery::print_text;
use crate::program_fault::ProgramFault;
use ira_event::Sink;
use ira_main_cli::GuideTopic;
use ira_view::Status;
use std::alloc::Allocator;

// Made of the command line by checks/command_words.py.
const COMMANDS_GUIDE: &[u8] = b"\
`ira` judges and makes logs of Itai-Rodeh elections on anonymous rings.

    ira < LOG
    ira logs [--over] [--leads <P,..|any|FILE>] [--json] <LOGS>
    ira logs --each [--sum] [--over] [--leads <P,..|any|FILE>] [--json] <DIR>...
    ira explain [--json] [<LOGS>]
    ira explain [--over] [--leads <P,..|any|FILE>] [--json] <LOGS>
    ira explain --each [--over] [--leads <P,..|any|FILE>] [--json] <DIR>...
    ira explain (--question <Q> | --ask <SENTENCE>) [--case <K> | --cert <C>] [--json] <LOGS>
    ira show [OPTIONS] <LOGS>
    ira draw --out <FILE> [OPTIONS] <LOGS>
    ira check --question <Q> --cert <C> [--depth <D>] [--json] <LOGS>
    ira decide (--question <Q> | --ask <SENTENCE>) [--out <C>] [--json] <LOGS>
    ira pairs <N>
    ira ask --nodes <N> <SENTENCE>
    ira ask --dir <DIR> <SENTENCE>
    ira run --nodes <N> --seed <S> --out <DIR> [OPTIONS]
    ira upgrade --out <DIR> <LOGS>
    ira mend --out <DIR> [--start <S>] [--lost <P,..>] <LOGS>
    ira guide [questions | logs]
    ira version

LOGS is either <LOG>... or --dir <DIR>. Without words `ira` judges one log on standard input.

    logs     Judges the logs of all nodes of a ring together
    explain  Judges logs, or one log on standard input, and says why the answer is so
    show     Shows what happened, at the end of the logs or at another moment
    draw     Draws what happened, as a space-time diagram: an SVG file or a page
    check    Judges logs together with a certificate that no moment met a case of a question
    decide   Decides for each case of a question whether some moment of the logged run met it
    pairs    Prints the question whether two nodes of a ring ever lead at once
    ask      Prints the question whether a sentence on the nodes of a ring ever holds
    run      Runs an election, and writes the log of each node to a file
    upgrade  Writes the logs of all nodes of a ring in version 2, each to a file
    mend     Writes of each log of a ring the longest beginning such that all are consistent
    guide    Says what the commands are, or how questions or logs are written
    version  Prints which version this is, and what proved it

`ira COMMAND --help` says on standard error which options a command has. `ira guide questions` says
how questions are written, and `ira guide logs` how logs are.
";

const QUESTIONS_GUIDE: &[u8] = b"\
A question asks whether some moment of a run held a combination of states that must not be. It is a
file of its own, here for a ring of three nodes:

    irask 1
    nodes 3
    case
    0: leader
    1: round > 2
    case
    0: (active and id = 3)
    1: ((choosing or active) and owes)
    2: (passive and (not term = 1))
    end

Each case is such a combination: a line for each node that it asks, by place. All must hold at once.

    leader                           it leads
    round > 2                        it chooses, is active or leads, in round 3 or later
    (active and id = 3)              it is active with ID 3
    ((choosing or active) and owes)  it has to draw or is active, and owes a message or a reset
    (passive and (not term = 1))     it is passive, in term 2 or later

How a clause is spelled:

    CLAUSE = ATOM | (not CLAUSE) | (CLAUSE and CLAUSE) | (CLAUSE or CLAUSE)
    ATOM   = true | leader | active | passive | choosing | yielding | owes
           | round REL NUMBER | id REL NUMBER | term REL NUMBER
    REL    = < | = | >

`ira decide --question FILE` with logs says of each case, counted from 0, whether some moment held it,
and `ira explain --question FILE` why. `ira show` and `ira draw` show the first moment that did.
`ira pairs N` prints the question whether two nodes of a ring of N ever lead at once.

`ira ask --nodes N 'SENTENCE'` prints the question whether a sentence on all nodes ever holds:

    any leader, other choosing        a node leads while another one has to draw
    any round > 2, other round < 2    one node is two rounds ahead of another
    any active, each other passive    one node is active, and all others are passive
    any owes, all term = 1            all nodes are in the first term, and one owes something
    all (not leader)                  nobody leads
    node 3 leader                     node 3 leads

A sentence has up to four parts in this order, each with a clause and `, ` between: `any`, after it
`other` and `each other`, and `all`. `other` speaks of one more node, and `each other` of all nodes
that were picked for neither. `node P CLAUSE`, on the node at place P, stands alone. With logs,
`ira decide --ask 'SENTENCE'`, `explain`, `show` and `draw` take a sentence in place of a question's file.
";

const LOGS_GUIDE: &[u8] = b"\
Each node writes a log of its own, a line after each step that it makes. That of node 0 of two:

    irlog 1
    nodes 2
    place 0
    start initiator
    draw 2
    send 1 2 1 clean
    recv 1 1 1 clean
    recv 1 2 2 clean
    end 4

Its lines, each ended by one line feed:

    irlog 1                  the version; 2 where leaders yield, or there are more than 64 nodes
    nodes N                  how many nodes the ring has, 2 to 255
    place P                  which it is, from 0: it sends to the next one, and the last to node 0
    start initiator          or `start passive`, where it waits for a message
    draw ID                  it drew an ID, 1 to N
    send ROUND ID HOP BIT    it put a message on its link; BIT is clean or dirty
    recv ROUND ID HOP BIT    it took a message off its link, here with the hop that it came with
    yield                    it led, and another term begins; in version 2 alone, as the next two
    send reset HOP           it put a reset on its link
    recv reset HOP           it took a reset off its link
    end COUNT                it is done: so many records stand between the head and this line

`ira < LOG` judges one log, `ira logs LOG..` those of a ring in the order of their places, and
`ira explain` says why an answer is no. `ira mend` is for logs that a crash cut off.
";

/// What is said on a topic.
fn guide_text(topic: GuideTopic) -> &'static [u8]
    ensures { result.now ≡ guide_text topic }
{
    match topic {
        GuideTopic::Commands => COMMANDS_GUIDE,
        GuideTopic::Questions => QUESTIONS_GUIDE,
        GuideTopic::Logs => LOGS_GUIDE,
    }
}

/// Prints what is said on a topic.
pub(crate) fn print_guide<'a, A: Allocator, W: Sink>(
    topic: GuideTopic,
    out: &mut W,
) -> Result<Status, ProgramFault<'a, A>>
    ensures { PrintsLine (guide_text topic) Yes (W.state out.old) (W.state out.new) result }
{
    print_text(guide_text(topic), Status::Yes, out)
}
