ghost use Rattle.std.specs.Prelude.{◌≡◌, ◌≤◌, length, decimal};

use itoa::Buffer;

/// How many digits the number has in plain decimal.
pub(crate) fn number_len(n: u32) -> usize
    ensures value { result ≡ length (decimal n) }
    ensures short { result ≤ 10 }
{
    Buffer::new().format(n).len()
}
