//! The interface of every configuration port.

ghost use Rattle.std.specs.Prelude.{◌≡◌, Bool};
ghost use Rattle.ports.specs.Calls.{left_answer, open_answer, open_after, feed_answer, feed_after, shut_answer, shut_after};
ghost use Rattle.ports.specs.Meaning.{Meaning, Sound};

use crate::answers::{Fed, Refusal};

/// A port with a rate and 32 slots. A refused call changes nothing, and no call changes the rate,
/// a flaw, a board number or another slot.
pub trait Port {
    /// Whether a half written slot may be left for another.
    const INTERRUPTIBLE: bool;

    ghost INTERRUPTIBLE: { Bool };

    ghost meaning: { Self → Meaning };

    /// The blocks that one feed writes at most.
    fn rate(&self) -> u32
        ensures { result ≡ (meaning self.now).rate };

    /// The blocks of the slot's image that are not yet written.
    fn left(&self, slot: u32) -> Result<u32, Refusal>
        ensures { result ≡ left_answer (meaning self.now) slot };

    /// Gives the slot an image, of which nothing is written yet.
    fn open(&mut self, slot: u32, image: u32, size: u32) -> Result<(), Refusal>
        ensures answer { result ≡ open_answer slot image size }
        ensures after { meaning self.new ≡ open_after (meaning self.old) slot image size };

    /// Writes the next blocks, or meets a flawed one among them and leaves the slot blank.
    fn feed(&mut self, slot: u32) -> Result<Fed, Refusal>
        ensures answer { result ≡ feed_answer INTERRUPTIBLE (meaning self.old) slot }
        ensures after { meaning self.new ≡ feed_after INTERRUPTIBLE (meaning self.old) slot };

    /// Makes the slot blank.
    fn shut(&mut self, slot: u32) -> Result<(), Refusal>
        ensures answer { result ≡ shut_answer slot }
        ensures after { meaning self.new ≡ shut_after (meaning self.old) slot };

    ghost sound: { (p : Self) → Sound (meaning p) };
}
