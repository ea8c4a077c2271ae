ghost use Rattle.std.specs.Prelude.{◌≡◌, ◌↔◌, IsTrue, length, [], ◌∷◌, ◌++◌, List};
ghost use Rattle.ira_event.specs.declared.load.Load.{Load};
ghost use Rattle.ira_view_evidence.specs.LinkCause.{BeginsWith, Explains, ExplainsRest, GoesOn, IsTwice};

use ira_event::Load;

/// Why what was received on a link from receipt `k` on isn't what was sent.
#[derive(Clone, Copy, Debug, PartialEq, Eq)]
pub enum LinkCause {
    /// Sending `k` and further ones, so many in all, have no receipt: they were lost, or their receipts aren't recorded.
    NoReceipt(usize),
    /// Receipt `k` and further ones, so many in all, have no sending, and those after them have.
    NoSending(usize),
    /// Receipt `k` is of the load before it once more.
    CameTwice,
}

/// Whether these loads begin with those.
fn begins_with(loads: &[Load], front: &[Load]) -> bool
    ensures { IsTrue result ↔ BeginsWith loads.now front.now }
{
    let mut rest = loads;
    for load in front {
        let Some((first, others)) = rest.split_first() else {
            return false;
        };
        if first != load {
            return false;
        }
        rest = others;
    }
    true
}

/// Whether the first of what was received is the last of these loads.
fn is_last_again(before: &[Load], received: &[Load]) -> bool
    ensures { IsTrue result ↔ ((load : Load) × (front rest : List Load) × (before.now ≡ front ++ load ∷ [])
        × (received.now ≡ load ∷ rest)) }
{
    match (before.last(), received.first()) {
        (Some(last), Some(first)) => last == first,
        _ => false,
    }
}

/// Whether what was sent after so many loads begins with what was received after so many others.
fn goes_on(sent: &[Load], skipped: usize, received: &[Load], passed: usize) -> bool
    ensures { IsTrue result ↔ GoesOn skipped passed sent.now received.now }
{
    if sent.len() < skipped || received.len() < passed {
        return false;
    }
    begins_with(&sent[skipped..], &received[passed..])
}

/// Whether the last load was received once more.
fn is_twice(before: &[Load], sent: &[Load], received: &[Load]) -> bool
    ensures { IsTrue result ↔ IsTwice before.now sent.now received.now }
{
    if !is_last_again(before, received) {
        return false;
    }
    goes_on(sent, 0, received, 1)
}

impl LinkCause {
    /// Whether what was received after these loads isn't what was sent after them for this cause.
    fn explains_rest(self, before: &[Load], sent: &[Load], received: &[Load]) -> bool
        ensures { IsTrue result ↔ ExplainsRest self before.now sent.now received.now }
    {
        match self {
            LinkCause::NoReceipt(count) => goes_on(sent, count, received, 0),
            LinkCause::NoSending(count) => count < received.len()
                && goes_on(sent, 0, received, count),
            LinkCause::CameTwice => is_twice(before, sent, received),
        }
    }

    /// Whether what was received from receipt `k` on isn't what was sent for this cause, and is what was sent before it.
    pub fn explains(self, sent: &[Load], received: &[Load], k: usize) -> bool
        ensures { IsTrue result ↔ Explains self sent.now received.now k }
    {
        if k == 0 || k > sent.len().saturating_add(1) || k > received.len().saturating_add(1) {
            return false;
        }
        let before = &sent[..k - 1];
        begins_with(received, before)
            && self.explains_rest(before, &sent[k - 1..], &received[k - 1..])
    }
}
