//! A port that remembers the progress of every slot.

ghost use Rattle.std.specs.Prelude.{◌≡◌, true, length};

use crate::answers::Refusal;
use crate::delivered::Delivered;
use crate::memory::Memory;
use crate::progress::Progress;
use crate::slot::Slot;

/// Any number of its slots may be half written.
pub type Interruptible = Delivered<EverySlot>;

/// The progress of every slot.
#[derive(Drop)]
pub struct EverySlot {
    slots: [Progress; 32],
    ghost sized: { length slots ≡ 32 },
}

impl Memory for EverySlot {
    ghost use Rattle.ports.specs.Progresses.{progress_entries};
    ghost use Rattle.ports.specs.ProgressLaws.{progresses_kept};

    const INTERRUPTIBLE: bool = true;

    ghost INTERRUPTIBLE = { true };

    ghost entries = { λ m. progress_entries m.slots };

    ghost kept = { λ m. progresses_kept m.slots };

    fn blank() -> Self {
        EverySlot {
            slots: [Progress::default(); 32],
        }
    }

    fn progress(&self, slot: Slot) -> Progress {
        self.slots[slot.number as usize]
    }

    fn must_wait(&self, _slot: Slot) -> bool {
        false
    }

    fn put(&mut self, slot: Slot, progress: Progress) -> Result<(), Refusal> {
        self.slots[slot.number as usize] = progress;
        Ok(())
    }
}
