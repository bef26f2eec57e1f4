//! Lines of a text: a letter, numbers each after one space, and byte 10.

ghost use Rattle.std.specs.Prelude.{◌≡◌, ◌<◌, ◌≤◌, length, IfOk, OnOk};
ghost use Rattle.text.specs.Lines.{letter_at, spaced, line_at};
ghost use Rattle.text.specs.Numbers.{most};

use crate::numbers::{Digits, Malformed, number};

/// The byte at `at`, as a character.
pub fn letter(text: &[u8], at: usize) -> Result<char, Malformed>
    ensures is { result ≡ letter_at text.now at }
    ensures inside { OnOk result (at < length text.now) }
{
    let byte = text.get(at).ok_or(Malformed)?;
    Ok(char::from(*byte))
}

/// One space and a number.
pub fn field(text: &[u8], at: usize, digits: Digits) -> Result<(u64, usize), Malformed>
    ensures is { result ≡ spaced text.now (most digits) at }
    ensures inside { IfOk result (λ x. (at < x.1) × (x.1 ≤ length text.now)) }
{
    if letter(text, at)? != ' ' {
        return Err(Malformed);
    }
    number(text, at + 1, digits)
}

/// The line at `at`: its letter, its N numbers, and the place after it.
pub fn line<const N: usize>(
    text: &[u8],
    at: usize,
    digits: Digits,
) -> Result<(char, [u64; N], usize), Malformed>
    ensures is { result ≡ line_at text.now (most digits) N at }
    ensures inside { IfOk result (λ x. (at < x.2) × (x.2 ≤ length text.now)) }
{
    let kind = letter(text, at)?;
    let mut numbers = [0; N];
    let mut next = at + 1;
    for number in &mut numbers {
        let (value, after) = field(text, next, digits)?;
        *number = value;
        next = after;
    }
    if letter(text, next)? != '\n' {
        return Err(Malformed);
    }
    Ok((kind, numbers, next + 1))
}
