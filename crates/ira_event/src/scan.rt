ghost use Rattle.std.specs.Prelude.{◌≡◌, ◌≤◌, ◌+◌, ◌-◌, ◌*◌, ℕ, true, false, drop, length, MatchOption};
ghost use Rattle.std.specs.Char.{is_ascii_digit};
ghost use Rattle.ira_event.specs.Scan.{digits_from, kept, kept_at, after_word, Gives};

/// More digits than any number within the limits has after its first one. So many turns are
/// unrolled.
const FEW: usize = 7;

/// What follows the word that the text begins with.
#[inline(always)]
pub fn skip_word<'a>(text: &'a [u8], word: &[u8]) -> Option<&'a [u8]>
    ensures { Gives (λ rest. rest.now) result (after_word word.now text.now) }
{
    text.strip_prefix(word)
}

/// The digit that the byte stands for.
#[inline(always)]
pub(crate) fn to_digit(byte: u8) -> Option<u32>
    ensures { MatchOption result (is_ascii_digit byte ≡ false)
        (λ digit. (is_ascii_digit byte ≡ true) × (digit ≡ byte - 48)) }
{
    // What is no digit gives more than 9: a byte below `0` wraps round.
    let digit = u32::from(byte).wrapping_sub(u32::from(b'0'));
    if digit <= 9 { Some(digit) } else { None }
}

/// The number that the text begins with, and what follows it. A number is `0`, or a digit 1 to 9 and
/// then any digits; `u32::MAX` stands for itself and for everything above.
#[inline(always)]
pub fn scan_number(text: &[u8]) -> Option<(u32, &[u8])>
    ensures { Gives (λ found. (found.0, found.1.now)) result (kept_at text.now) }
{
    match text {
        [b'0', rest @ ..] => Some((0, rest)),
        [first @ b'1'..=b'9', rest @ ..] => Some(scan_digits(u32::from(*first - b'0'), rest)),
        _ => None,
    }
}

/// What the digits at the front go on to, after the number so far, and what follows them.
#[inline(always)]
fn scan_digits(first: u32, text: &[u8]) -> (u32, &[u8])
    ensures value { result.0 ≡ kept (digits_from first text.now).0 }
    ensures rest { result.1.now ≡ (digits_from first text.now).1 }
{
    if text.len() >= FEW {
        let mut value = first;
        for i in 0..FEW {
            let Some(digit) = to_digit(text[i]) else {
                return (value, &text[i..]);
            };
            value = with_digit(value, digit);
        }
    }
    let (value, digits) = read_many_digits(first, text);
    (value, &text[digits..])
}

/// The same number, where the digits are many or the text's last ones, and how many they are.
#[cold]
#[inline(never)]
fn read_many_digits(first: u32, text: &[u8]) -> (u32, usize)
    ensures value { result.0 ≡ kept (digits_from first text.now).0 }
    ensures rest { drop result.1 text.now ≡ (digits_from first text.now).1 }
    ensures within { result.1 ≤ length text.now }
{
    let mut value = first;
    for i in 0..text.len() {
        let Some(digit) = to_digit(text[i]) else {
            return (value, i);
        };
        value = with_digit(value, digit);
    }
    (value, text.len())
}

/// The number that one more digit makes of it.
#[inline(always)]
fn with_digit(n: u32, digit: u32) -> u32
    requires { digit ≤ 9 }
    ensures { result ≡ kept (10 * n + digit) }
{
    // No number within the limits is as large.
    if n >= 100_000_000 {
        return n.saturating_mul(10).saturating_add(digit);
    }
    10 * n + digit
}
