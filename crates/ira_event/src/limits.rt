ghost use Rattle.std.specs.Prelude.{◌≡◌};
ghost use Rattle.ira_event.specs.Event.{is_number as number_test};

/// The most nodes that a ring has.
pub const MAX_NODES: usize = 255;

/// The most nodes of a ring whose logs are of version 1.
pub const MAX_VERSION_1_NODES: usize = 64;

/// The greatest version of a log; the least is 1.
pub const MAX_VERSION: u8 = 2;

/// The largest round, ID, hop and draw that a record holds, and the last term; the smallest is 1.
pub const MAX_NUMBER: u32 = 1_000_000;

/// The most records that a log has.
pub const MAX_RECORDS: usize = 100_000;

/// The most bytes that a text has.
pub const MAX_TEXT: usize = 67_108_864;

/// Whether a record may hold the number.
pub(crate) fn is_number(n: u32) -> bool
    ensures { result ≡ number_test n }
{
    (1..=MAX_NUMBER).contains(&n)
}
