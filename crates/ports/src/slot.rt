//! Slot numbers.

ghost use Rattle.std.specs.Prelude.{◌≡◌, ◌≤◌};

use crate::answers::Refusal;

/// The number of a slot, 0 to 31.
#[derive(Clone, Copy, PartialEq, Eq, Debug)]
pub struct Slot {
    pub number: u32,
    ghost there: { number ≤ 31 },
}

impl TryFrom<u32> for Slot {
    ghost use Rattle.ports.specs.Calls.{judged, made_of, why_slot};

    type Error = Refusal;

    ghost try_from_gives = { λ number slot. made_of (λ s. s.number) slot ≡ judged (why_slot number) number };

    fn try_from(number: u32) -> Result<Self, Refusal> {
        if number > 31 {
            return Err(Refusal::NoSuchSlot);
        }
        Ok(Slot { number })
    }
}
