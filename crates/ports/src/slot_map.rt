//! A map from the 32 slots of a plan to the 32 slots of a board.

ghost use Rattle.std.specs.Prelude.{◌≡◌, true, length};
ghost use Rattle.ports.specs.Maps.{covers};

use crate::answers::Refusal;
use crate::slot::Slot;
use std::array;

/// Each board slot stands at exactly one place.
#[derive(Clone, Copy)]
pub struct SlotMap {
    places: [u8; 32],
    ghost sized: { length places ≡ 32 },
    ghost whole: { covers places 32 ≡ true },
}

/// Whether each board slot stands at some place.
fn has_all(places: &[u8; 32]) -> bool
    ensures { result ≡ covers places.now 32 }
{
    (0..32).all(|board| places.contains(&board))
}

impl SlotMap {
    ghost use Rattle.std.specs.Prelude.{slice_index};
    ghost use Rattle.std.specs.List.{range_with_len};
    ghost use Rattle.ports.specs.Calls.{judged, unless, made_of, why_slot};
    ghost use Rattle.ports.specs.Maps.{exchanged, why_exchange, why_map};
    ghost use Rattle.ports.specs.Means.{places_of};

    /// Each slot keeps its number.
    pub fn identity() -> Self
        ensures { places_of result ≡ range_with_len 0 32 }
    {
        SlotMap {
            places: array::from_fn(|place| place as u8),
        }
    }

    /// The map with these places, which must lack none of 0 to 31.
    pub fn new(places: [u8; 32]) -> Result<Self, Refusal>
        ensures { made_of places_of result ≡ judged (why_map places) places }
    {
        if !has_all(&places) {
            return Err(Refusal::BadMap);
        }
        Ok(SlotMap { places })
    }

    /// Exchanges what stands at two places.
    pub fn exchange(&mut self, a: u32, b: u32) -> Result<(), Refusal>
        ensures answer { result ≡ judged (why_exchange a b) tt }
        ensures after { places_of self.new ≡ unless (why_exchange a b) (places_of self.old) (exchanged (places_of self.old) a b) }
    {
        let a = Slot::try_from(a).map_err(|_| Refusal::BadMap)?;
        let b = Slot::try_from(b).map_err(|_| Refusal::BadMap)?;
        self.places.swap(a.number as usize, b.number as usize);
        Ok(())
    }

    /// The board slot at a place.
    pub fn below(&self, slot: u32) -> Result<u32, Refusal>
        ensures { result ≡ judged (why_slot slot) (slice_index (places_of self.now) slot) }
    {
        let slot = Slot::try_from(slot)?;
        Ok(u32::from(self.places[slot.number as usize]))
    }
}
