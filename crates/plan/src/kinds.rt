//! The kinds of a plan's lines.

ghost use Rattle.std.specs.Prelude.{◌≡◌};
ghost use Rattle.plan.specs.Kinds.{letter_kind};

#[derive(Clone, Copy, PartialEq, Eq)]
pub enum Kind {
    Contents,
    Partition,
    Accelerator,
}

/// The kind of a line, by its first letter.
pub(crate) fn kind_of(letter: char) -> Option<Kind>
    ensures { result ≡ letter_kind letter }
{
    match letter {
        'c' => Some(Kind::Contents),
        'p' => Some(Kind::Partition),
        'a' => Some(Kind::Accelerator),
        _ => None,
    }
}
