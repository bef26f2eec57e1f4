//! What the uninterruptible port remembers of each slot, and of the one that is half written.

ghost use Rattle.std.specs.Prelude.{◌≡◌, ◌≤◌, ℕ};
ghost use Rattle.ports.specs.Meaning.{block_of};

use crate::progress::Progress;
use crate::slot::Slot;

/// The image and its size, with the block that is flawed.
#[derive(Clone, Copy)]
pub struct Stored {
    pub image: u32,
    pub size: u32,
    /// All blocks of the image are written; how many are of one that is not whole, `Begun` has.
    pub whole: bool,
    pub flaw: Option<u32>,
    ghost image_fits: { image ≤ 31 },
    ghost size_fits: { size ≤ 1000000 },
    ghost flaw_fits: { block_of flaw ≤ 999999 },
}

/// The slot that is half written, and its written blocks.
#[derive(Clone, Copy)]
pub struct Begun {
    pub slot: Slot,
    pub written: u32,
    ghost some: { 1 ≤ written },
}

impl From<Progress> for Stored {
    ghost use Rattle.ports.specs.Storing.{IsStored};

    ghost from_gives = { IsStored };

    fn from(progress: Progress) -> Self {
        let Progress {
            image,
            size,
            written,
            flaw,
        } = progress;
        Stored {
            image,
            size,
            whole: written == size,
            flaw,
        }
    }
}

impl Stored {
    ghost use Rattle.ports.specs.Progresses.{progress_entry};
    ghost use Rattle.ports.specs.Storing.{stored_entry};

    /// The progress of a slot of which `written` blocks are written, unless it is whole.
    pub(crate) fn progress(self, written: u32) -> Progress
        requires { written ≤ self.size }
        ensures { (k : ℕ) → progress_entry result k ≡ stored_entry self written k }
    {
        Progress {
            image: self.image,
            size: self.size,
            written: if self.whole { self.size } else { written },
            flaw: self.flaw,
        }
    }
}
