//! What a port remembers of its slots.

ghost use Rattle.std.specs.Prelude.{◌≡◌, Bool, List, slice_index_or};
ghost use Rattle.ports.specs.Calls.{fresh_entry};
ghost use Rattle.ports.specs.Meaning.{Entry, nothing};
ghost use Rattle.ports.specs.Memories.{Kept, each_slot, must_wait, put_answer, put_after};
ghost use Rattle.ports.specs.Progresses.{progress_entry};

use crate::answers::Refusal;
use crate::progress::Progress;
use crate::slot::Slot;

/// A memory of how far the writing of each of 32 slots has come.
pub trait Memory: Sized {
    /// Whether it holds more than one half written slot.
    const INTERRUPTIBLE: bool;

    ghost INTERRUPTIBLE: { Bool };

    ghost entries: { Self → List Entry };

    /// No slot has an image or a flaw.
    fn blank() -> Self
        ensures { entries result ≡ each_slot fresh_entry };

    /// What is known of a slot.
    fn progress(&self, slot: Slot) -> Progress
        ensures { progress_entry result slot.number ≡ slice_index_or (entries self.now) slot.number nothing };

    /// Whether a half written slot other than this one has to be written first.
    fn must_wait(&self, slot: Slot) -> bool
        ensures { result ≡ must_wait INTERRUPTIBLE (entries self.now) slot.number };

    /// Replaces what is known of a slot. Refused where it would be one half written slot too many.
    fn put(&mut self, slot: Slot, progress: Progress) -> Result<(), Refusal>
        ensures answer { result ≡ put_answer INTERRUPTIBLE (entries self.old) slot.number (progress_entry progress slot.number) }
        ensures after { entries self.new ≡ put_after INTERRUPTIBLE (entries self.old) slot.number (progress_entry progress slot.number) };

    ghost kept: { (m : Self) → Kept INTERRUPTIBLE (entries m) };
}
