//! A port that remembers the progress of its half written slot alone.

ghost use Rattle.std.specs.Prelude.{◌≡◌, ◌≢◌, ℕ, true, false, cond, length};
ghost use Rattle.ports.specs.Meaning.{half};
ghost use Rattle.ports.specs.Progresses.{progress_entry};
ghost use Rattle.ports.specs.Storing.{Current, stored_entries, waits, written_at};
ghost use Rattle.ports.specs.StoringLaws.{stored_kept};

use crate::answers::Refusal;
use crate::delivered::Delivered;
use crate::memory::Memory;
use crate::progress::Progress;
use crate::slot::Slot;
use crate::stored::{Begun, Stored};

/// At most one of its slots is half written.
pub type Uninterruptible = Delivered<OneSlot>;

/// The progress of the slot that is half written, if there is one; the others are whole, or nothing of them is written.
#[derive(Drop)]
pub struct OneSlot {
    slots: [Stored; 32],
    begun: Option<Begun>,
    ghost sized: { length slots ≡ 32 },
    ghost current: { Current slots begun },
}

impl OneSlot {
    /// The blocks written of a slot that is not whole.
    fn written(&self, slot: Slot) -> u32
        ensures { result ≡ written_at self.now.begun slot.number }
    {
        match self.begun {
            Some(begun) if begun.slot == slot => begun.written,
            _ => 0,
        }
    }

    /// What is begun once a slot has this progress.
    fn begun_after(&self, slot: Slot, progress: Progress) -> Option<Begun>
        requires { half (progress_entry progress slot.number) ≡ true → waits self.now.begun slot.number ≡ false }
        ensures own { written_at result slot.number ≡ cond (half (progress_entry progress slot.number)) progress.written 0 }
        ensures others { (k : ℕ) → k ≢ slot.number → written_at result k ≡ written_at self.now.begun k }
    {
        if progress.is_half_written() {
            Some(Begun {
                slot,
                written: progress.written,
            })
        } else {
            self.begun.filter(|begun| begun.slot != slot)
        }
    }
}

impl Memory for OneSlot {
    const INTERRUPTIBLE: bool = false;

    ghost INTERRUPTIBLE = { false };

    ghost entries = { λ m. stored_entries m.slots m.begun };

    ghost kept = { λ m. stored_kept m.slots m.begun m.current };

    fn blank() -> Self {
        OneSlot {
            slots: [Stored::from(Progress::default()); 32],
            begun: None,
        }
    }

    fn progress(&self, slot: Slot) -> Progress {
        self.slots[slot.number as usize].progress(self.written(slot))
    }

    fn must_wait(&self, slot: Slot) -> bool {
        self.begun.is_some_and(|begun| begun.slot != slot)
    }

    fn put(&mut self, slot: Slot, progress: Progress) -> Result<(), Refusal> {
        if progress.is_half_written() && self.must_wait(slot) {
            return Err(Refusal::OtherHalfWritten);
        }
        self.begun = self.begun_after(slot, progress);
        self.slots[slot.number as usize] = Stored::from(progress);
        Ok(())
    }
}
