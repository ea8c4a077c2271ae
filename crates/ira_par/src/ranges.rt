// The ranges of a section's steps.
ghost use Rattle.std.specs.Prelude.{◌≡◌, ◌^◌, ◌≤◌, get_or};
ghost use Rattle.ira_par.specs.Halves.{halved};

/// How many ranges there are where steps are halved so many times.
pub(crate) fn range_count(depth: u8) -> usize
    requires { depth ≤ 4 }
    ensures { result ≡ 2 ^ depth }
{
    1 << depth
}

/// The step with which the range of this number begins, where the steps `from..to` are halved so many times. For the
/// number of the ranges it is the end of the last one.
pub(crate) fn begin_of(from: usize, to: usize, depth: u8, number: usize) -> usize
    requires order { from ≤ to }
    requires depth { depth ≤ 4 }
    ensures { result ≡ get_or (halved depth from to) number to }
{
    if depth == 0 {
        return if number == 0 { from } else { to };
    }
    let middle = from + (to - from) / 2;
    let half = range_count(depth - 1);
    if number < half {
        begin_of(from, middle, depth - 1, number)
    } else {
        begin_of(middle, to, depth - 1, number - half)
    }
}
