//! Settling.

ghost use Rattle.std.specs.Prelude.{◌≡◌};
ghost use Rattle.model.specs.States.{line};
ghost use Rattle.model.specs.Records.{lowest};
ghost use Rattle.model.specs.Moves.{queued_in, fill, settle};

use crate::places::Place;
use crate::scheduler::Scheduler;
use model::requests::Stage;
use ports::port::Port;

impl<P: Port> Scheduler<P> {
    /// The request that is next to get a slot of partition `k`.
    fn queued(&self, k: usize) -> Option<Place>
        ensures { result ≡ lowest (queued_in self.now.layout k) self.now.records }
    {
        self.records
            .lowest(|r| r.stage == Stage::Queued && self.partition_of(r) == k)
    }

    /// The slots in line of partition `k` go to its queued requests.
    fn fill(&mut self, k: usize)
        ensures { self.new ≡ fill k (line self.old k) self.old }
    {
        while let Some(slot) = self.lines.first(k) {
            let Some(place) = self.queued(k) else {
                return;
            };
            self.grant(k, place, slot);
        }
    }

    pub(super) fn settle(&mut self)
        ensures { self.new ≡ settle self.old }
    {
        for k in 0..self.plan.partition_count() {
            self.fill(k);
        }
    }
}
