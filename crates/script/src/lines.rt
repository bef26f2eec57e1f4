//! The lines of a script.

ghost use Rattle.std.specs.Prelude.{◌≡◌, ◌∷◌, [], Ok, Err, MatchOption, MatchResult};
ghost use Rattle.script.specs.Lines.{lines_of, letter_kind, first_line, opening};

use crate::refusals::ScriptRefusal;
use text::lines::line;
use text::numbers::{Digits, Malformed};

/// What a line of a script begins with.
#[derive(Clone, Copy, PartialEq, Eq)]
pub enum Kind {
    Interruptible,
    Uninterruptible,
}

/// The kind of a line, by its first letter.
fn kind_of(letter: char) -> Option<Kind>
    ensures { result ≡ letter_kind letter }
{
    match letter {
        'i' => Some(Kind::Interruptible),
        'u' => Some(Kind::Uninterruptible),
        _ => None,
    }
}

/// The first line of a text, with its byte 10 where it has one, and the rest; nothing of an empty text.
fn split_line(text: &[u8]) -> Option<(&[u8], &[u8])>
    ensures { MatchOption result (lines_of text.now ≡ []) (λ x. lines_of text.now ≡ x.0.now ∷ lines_of x.1.now) }
{
    let line = text.split_inclusive(|byte| *byte == b'\n').next()?;
    Some(text.split_at(line.len()))
}

/// Line one of a script: which port, and its rate.
fn read_port(bytes: &[u8]) -> Result<(Kind, u32), Malformed>
    ensures { result ≡ first_line bytes.now }
{
    let (letter, [rate], _) = line::<1>(bytes, 0, Digits::Ten)?;
    let kind = kind_of(letter).ok_or(Malformed)?;
    let rate = u32::try_from(rate).map_err(|_| Malformed)?;
    Ok((kind, rate))
}

/// The port and the rate of a script, and its lines after line one.
pub(crate) fn read_script(script: &[u8]) -> Result<(Kind, u32, &[u8]), ScriptRefusal>
    ensures { MatchResult result (λ x. opening script.now ≡ Ok ((x.0, x.1), lines_of x.2.now)) (λ e. opening script.now ≡ Err e) }
{
    if script.len() > 65_536 {
        return Err(ScriptRefusal::TooLong);
    }
    let (first, rest) = split_line(script).ok_or(ScriptRefusal::BadLine)?;
    let (kind, rate) = read_port(first).map_err(|_| ScriptRefusal::BadLine)?;
    Ok((kind, rate, rest))
}
