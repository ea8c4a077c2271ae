//! What elements of a picture are: their classes, as the style sheet calls them.

/// The heading, and that of logs that something stands against.
pub(crate) const TITLE: &str = "t";

pub(crate) const NAMED_TITLE: &str = "t bt";
/// The name of a lane's node, and of node 0 once more below the last lane.
pub(crate) const NAME: &str = "n";

pub(crate) const SECOND_NAME: &str = "n s";
/// Words that are said by the way.
pub(crate) const ASIDE: &str = "s";
/// Words with their middle at their place.
pub(crate) const CENTRED: &str = "k";
/// The background, and what is pale since it hasn't happened at the moment.
pub(crate) const BACKGROUND: &str = "bg";

pub(crate) const PALE: &str = "bg f";
/// Lines at columns, their numbers, and what these count.
pub(crate) const TICKS: &str = "g";

pub(crate) const TICK_NUMBER: &str = "q";

pub(crate) const TICK_NAME: &str = "s cl";
/// Bands: what nodes are doing, and when they owe something.
pub(crate) const CHOOSING: &str = "c";

pub(crate) const ACTIVE: &str = "a";

pub(crate) const PASSIVE: &str = "p";

pub(crate) const LEADER: &str = "w";

/// Leading after what the answer speaks of.
pub(crate) const DOUBTED: &str = "dl";

pub(crate) const YIELDING: &str = "v";

pub(crate) const UNKNOWN: &str = "u";

pub(crate) const DEBT: &str = "o";
/// A group of marks, and of these a draw; the same in the legend.
pub(crate) const MARKS: &str = "e";

pub(crate) const DRAW: &str = "d";

pub(crate) const SAMPLE_MARK: &str = "j";

pub(crate) const SAMPLE_DRAW: &str = "j d";
/// Arrows: of messages, of resets with their inner line, and of laps; and the words beside them.
pub(crate) const MESSAGE: &str = "m";

pub(crate) const DIRTY: &str = "m y";

pub(crate) const RESET: &str = "m x";

pub(crate) const INSIDE: &str = "i";

pub(crate) const LAP: &str = "z";

pub(crate) const ARROW_WORDS: &str = "l";
/// Arrows of what was received as another or wasn't sent, and of what was received no later than it was sent.
pub(crate) const WRONG: &str = "b y";

pub(crate) const BACK: &str = "b";
/// A ring round an event that the answer speaks of, and why: right of its place, round it, or left of it.
pub(crate) const RING: &str = "b r";

pub(crate) const REMARK: &str = "bt";

pub(crate) const CENTRED_REMARK: &str = "bt k";

pub(crate) const REMARK_BEFORE: &str = "bt n";
/// The line of a moment, its words, and a node that they speak of.
pub(crate) const MOMENT: &str = "h";

pub(crate) const MOMENT_WORDS: &str = "ht";

pub(crate) const MOMENT_NODE: &str = "h bg";
