//! Why a script is refused.

ghost use Rattle.std.specs.Prelude.{◌≡◌};
ghost use Rattle.script.specs.Refusals.{script_refusal_number};

/// Why a script, or a line of it, is refused.
#[derive(Clone, Copy, PartialEq, Eq, Debug)]
pub enum ScriptRefusal {
    /// Line one is absent or not of its form, or a line is a call, of which the runner makes none yet.
    BadLine,
    /// The script is longer than 65,536 bytes.
    TooLong,
}

impl ScriptRefusal {
    /// The number by which the refusal is known outside.
    pub fn number(self) -> u32
        ensures { result ≡ script_refusal_number self }
    {
        match self {
            ScriptRefusal::BadLine => 60,
            ScriptRefusal::TooLong => 61,
        }
    }
}
