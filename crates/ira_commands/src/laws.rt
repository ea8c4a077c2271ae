ghost use Rattle.ira_commands.specs.Laws.{CheckingHasOneReply, JudgingHasOneReply, MendingHasOneReply, RepliesHaveOneStatus, UpgradingHasOneReply};

use std::alloc::Allocator;

/// A law: what a command is given determines the status of its reply, where no ring is shown. Not so whether a certificate
/// is past the limits, since several can be made: that refusal counts as the yes before it.
pub fn replies_have_one_status<A: Allocator, B: Allocator>()
    ensures { RepliesHaveOneStatus A B }
{}

/// A law: the reply to logs that are judged, upgraded or mended, and to a certificate that is checked, is determined to the
/// byte by what is given, its files too.
pub fn answers_have_one_reply()
    ensures judging { JudgingHasOneReply }
    ensures checking { CheckingHasOneReply }
    ensures upgrading { UpgradingHasOneReply }
    ensures mending { MendingHasOneReply }
{}
