//! A layer that shows the slots of a port under other numbers.

ghost use Rattle.std.specs.Prelude.{◌≡◌};
ghost use Rattle.ports.specs.Layers.{Found, renumbered};
ghost use Rattle.ports.specs.Means.{places_of, renumbered_meaning};
ghost use Rattle.ports.specs.LayerLaws.{re_sound};

use crate::answers::{Fed, Refusal};
use crate::port::Port;
use crate::slot_map::SlotMap;

/// The entry of a slot is the entry of the slot below that the map has for it.
#[derive(Drop)]
pub struct Renumbered<P> {
    port: P,
    map: SlotMap,
}

impl<P: Port> Renumbered<P> {
    /// The port with its slots under the numbers of the map.
    pub fn new(port: P, map: SlotMap) -> Self
        ensures { renumbered_meaning P.Port.meaning result ≡ renumbered (places_of map) (P.Port.meaning port) }
    {
        Renumbered { port, map }
    }

    /// The slot below: a call for it does what the call for the slot above should.
    fn below(&self, slot: u32) -> Result<u32, Refusal>
        ensures { Found P.Port.INTERRUPTIBLE (places_of self.now.map) (P.Port.meaning self.now.port) slot result }
    {
        self.map.below(slot)
    }
}

impl<P: Port> Port for Renumbered<P> {
    const INTERRUPTIBLE: bool = P::INTERRUPTIBLE;

    ghost INTERRUPTIBLE = { P.Port.INTERRUPTIBLE };

    ghost meaning = { renumbered_meaning P.Port.meaning };

    ghost sound = { λ p. re_sound p.map.places p.map.sized p.map.whole (P.Port.meaning p.port) (P.Port.sound p.port) };

    fn rate(&self) -> u32 {
        self.port.rate()
    }

    fn left(&self, slot: u32) -> Result<u32, Refusal> {
        let below = self.below(slot)?;
        self.port.left(below)
    }

    fn open(&mut self, slot: u32, image: u32, size: u32) -> Result<(), Refusal> {
        let below = self.below(slot)?;
        self.port.open(below, image, size)
    }

    fn feed(&mut self, slot: u32) -> Result<Fed, Refusal> {
        let below = self.below(slot)?;
        self.port.feed(below)
    }

    fn shut(&mut self, slot: u32) -> Result<(), Refusal> {
        let below = self.below(slot)?;
        self.port.shut(below)
    }
}
