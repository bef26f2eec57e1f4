//! What the calls of a port answer.

ghost use Rattle.std.specs.Prelude.{◌≡◌, Some};
ghost use Rattle.ports.specs.Calls.{refusal_number, refusal_text};

use std::error::Error;
use std::fmt;

/// Why a call is refused.
#[derive(Clone, Copy, PartialEq, Eq, Debug)]
pub enum Refusal {
    /// A rate outside 1 to 65,535.
    BadRate,
    /// A flaw for a slot above 31 or on a block above 999,999.
    BadFlaw,
    /// A map that lacks one of 0 to 31, or a place of a map above 31.
    BadMap,
    /// A slot above 31.
    NoSuchSlot,
    /// An image above 31 or a size outside 1 to 1,000,000.
    BadImage,
    /// All blocks of the slot's image are written, or it has no image.
    NothingLeft,
    /// The port cannot be interrupted, and another slot is half written.
    OtherHalfWritten,
}

impl Refusal {
    /// The number by which the refusal is known outside.
    pub fn number(self) -> u32
        ensures { result ≡ refusal_number self }
    {
        match self {
            Refusal::BadRate => 50,
            Refusal::BadFlaw => 51,
            Refusal::BadMap => 52,
            Refusal::NoSuchSlot => 53,
            Refusal::BadImage => 54,
            Refusal::NothingLeft => 55,
            Refusal::OtherHalfWritten => 56,
        }
    }
}

impl fmt::Display for Refusal {
    ghost output = { λ refusal. Some (refusal_text refusal) };

    fn fmt<W: fmt::Write>(&self, f: &mut fmt::Formatter<W>) -> fmt::Result {
        write!(f, "no {}", self.number())
    }
}

impl Error for Refusal {}

/// What a feed did: it wrote so many blocks, or it met a flawed block on a board.
#[derive(Clone, Copy, PartialEq, Eq, Debug)]
pub enum Fed {
    Wrote(u32),
    Flawed { block: u32, board: u32 },
}
