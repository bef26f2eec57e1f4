//! How far the writing of one slot has come.

ghost use Rattle.std.specs.Prelude.{◌≡◌, ℕ, ◌<◌, ◌≤◌, ◌-◌, ◌&&◌, nat_lt};
ghost use Rattle.ports.specs.Meaning.{block_of};

use crate::answers::Fed;

/// The image, its size and the blocks written, with the block that is flawed.
#[derive(Clone, Copy)]
pub struct Progress {
    pub image: u32,
    pub size: u32,
    pub written: u32,
    pub flaw: Option<u32>,
    ghost image_fits: { image ≤ 31 },
    ghost size_fits: { size ≤ 1000000 },
    ghost in_size: { written ≤ size },
    ghost flaw_fits: { block_of flaw ≤ 999999 },
}

/// No image and no flaw. Beside a ghost field it cannot be derived, and `..` cannot stand in a literal.
impl Default for Progress {
    ghost use Rattle.ports.specs.Calls.{fresh_entry};
    ghost use Rattle.ports.specs.Progresses.{progress_entry};

    ghost is_default = { λ p. (k : ℕ) → progress_entry p k ≡ fresh_entry k };

    fn default() -> Self {
        Progress {
            image: 0,
            size: 0,
            written: 0,
            flaw: None,
        }
    }
}

impl Progress {
    ghost use Rattle.ports.specs.Calls.{hit, fed, fed_entry};
    ghost use Rattle.ports.specs.Progresses.{progress_entry};

    /// The blocks that are not yet written.
    pub(crate) fn left(self) -> u32
        ensures { result ≡ self.size - self.written }
    {
        self.size - self.written
    }

    /// Whether some blocks are written, and not all.
    pub(crate) fn is_half_written(self) -> bool
        ensures { result ≡ (nat_lt 0 self.written && nat_lt self.written self.size) }
    {
        self.written > 0 && self.written < self.size
    }

    /// No image; a flaw stays where it is.
    pub(crate) fn blanked(self) -> Self
        ensures empty { (result.image ≡ 0) × (result.size ≡ 0) × (result.written ≡ 0) }
        ensures flaw { result.flaw ≡ self.flaw }
    {
        Progress {
            image: 0,
            size: 0,
            written: 0,
            flaw: self.flaw,
        }
    }

    /// The flawed block, if it is one of the next `count` blocks.
    fn flaw_among(self, count: u32) -> Option<u32>
        ensures { result ≡ hit self.flaw self.written count }
    {
        let written = self.written;
        self.flaw
            .filter(|&block| written <= block && block - written < count)
    }

    /// Writes the blocks of one tick, or meets the flaw among them and becomes blank.
    pub(crate) fn feed(&mut self, rate: u32, board: u32) -> Fed
        requires { self.old.written < self.old.size }
        ensures answer { result ≡ fed rate (progress_entry self.old board) }
        ensures after { progress_entry self.new board ≡ fed_entry rate (progress_entry self.old board) }
    {
        let count = rate.min(self.left());
        match self.flaw_among(count) {
            Some(block) => {
                *self = self.blanked();
                Fed::Flawed { block, board }
            }
            None => {
                self.written += count;
                Fed::Wrote(count)
            }
        }
    }
}
