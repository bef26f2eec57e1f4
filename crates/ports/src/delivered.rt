//! A port over a memory of its slots.

ghost use Rattle.std.specs.Prelude.{◌≡◌, ◌≤◌};

use crate::answers::{Fed, Refusal};
use crate::memory::Memory;
use crate::port::Port;
use crate::progress::Progress;
use crate::slot::Slot;

/// A port on which flaws may be set. Its board numbers are its slot numbers.
#[derive(Drop)]
pub struct Delivered<M> {
    rate: u32,
    memory: M,
    ghost paced: { (1 ≤ rate) × (rate ≤ 65535) },
}

impl<M: Memory> Delivered<M> {
    ghost use Rattle.ports.specs.Calls.{made_of, making, flaw_answer, flaw_after};
    ghost use Rattle.ports.specs.Means.{delivered_meaning};

    /// A blank port without flaws that writes `rate` blocks a tick.
    pub fn new(rate: u32) -> Result<Self, Refusal>
        ensures { made_of (delivered_meaning M.Memory.entries) result ≡ making rate }
    {
        if rate == 0 || rate > 65_535 {
            return Err(Refusal::BadRate);
        }
        Ok(Delivered {
            rate,
            memory: M::blank(),
        })
    }

    /// Puts a flaw on a block of a slot, whatever image is written there.
    pub fn set_flaw(&mut self, slot: u32, block: u32) -> Result<(), Refusal>
        ensures answer { result ≡ flaw_answer slot block }
        ensures after { delivered_meaning M.Memory.entries self.new ≡ flaw_after (delivered_meaning M.Memory.entries self.old) slot block }
    {
        let slot = Slot::try_from(slot).map_err(|_| Refusal::BadFlaw)?;
        if block > 999_999 {
            return Err(Refusal::BadFlaw);
        }
        let mut progress = self.memory.progress(slot);
        progress.flaw = Some(block);
        self.memory.put(slot, progress)
    }
}

impl<M: Memory> Port for Delivered<M> {
    ghost use Rattle.ports.specs.Means.{delivered_meaning};
    ghost use Rattle.ports.specs.MemoryLaws.{delivered_sound};

    const INTERRUPTIBLE: bool = M::INTERRUPTIBLE;

    ghost INTERRUPTIBLE = { M.Memory.INTERRUPTIBLE };

    ghost meaning = { delivered_meaning M.Memory.entries };

    ghost sound = { λ p. delivered_sound M.Memory.INTERRUPTIBLE p.rate (M.Memory.entries p.memory) p.paced.0 p.paced.1 (M.Memory.kept p.memory) };

    fn rate(&self) -> u32 {
        self.rate
    }

    fn left(&self, slot: u32) -> Result<u32, Refusal> {
        let slot = Slot::try_from(slot)?;
        Ok(self.memory.progress(slot).left())
    }

    fn open(&mut self, slot: u32, image: u32, size: u32) -> Result<(), Refusal> {
        let slot = Slot::try_from(slot)?;
        if image > 31 || size == 0 || size > 1_000_000 {
            return Err(Refusal::BadImage);
        }
        let Progress { flaw, .. } = self.memory.progress(slot);
        let opened = Progress {
            image,
            size,
            written: 0,
            flaw,
        };
        self.memory.put(slot, opened)
    }

    fn feed(&mut self, slot: u32) -> Result<Fed, Refusal> {
        let slot = Slot::try_from(slot)?;
        let mut progress = self.memory.progress(slot);
        if progress.written >= progress.size {
            return Err(Refusal::NothingLeft);
        }
        if self.memory.must_wait(slot) {
            return Err(Refusal::OtherHalfWritten);
        }
        let fed = progress.feed(self.rate, slot.number);
        self.memory.put(slot, progress)?;
        Ok(fed)
    }

    fn shut(&mut self, slot: u32) -> Result<(), Refusal> {
        let slot = Slot::try_from(slot)?;
        let blank = self.memory.progress(slot).blanked();
        self.memory.put(slot, blank)
    }
}
