//! The parts of a tick.

ghost use Rattle.std.specs.Prelude.{◌≡◌, ◌≤◌, count_by, length};
ghost use Rattle.ports.specs.Calls.{feed_after};
ghost use Rattle.model.specs.Records.{lowest, ended_stage, fed_record};
ghost use Rattle.model.specs.Moves.{expired, expire, choose, stage_after, stage_fed, write};

use crate::places::Place;
use crate::scheduler::Scheduler;
use crate::scheduler::moves::slot_of;
use model::requests::{Outcome, Record, Stage};
use ports::answers::Fed;
use ports::port::Port;

impl<P: Port> Scheduler<P> {
    /// The requests whose run ticks are used end, by rising ticket. Tells how many.
    pub(super) fn expire(&mut self) -> u32
        ensures count { result ≡ count_by (expired self.old.layout) self.old.records }
        ensures few { result ≤ 16 }
        ensures after { self.new ≡ expire self.old }
    {
        let mut ended = 0;
        while let Some(place) = self.expired() {
            self.finish(place, Outcome::Overrun);
            ended += 1;
        }
        ended
    }

    /// The request that is next to end as overrun.
    fn expired(&self) -> Option<Place>
        ensures is { result ≡ lowest (expired self.now.layout) self.now.records }
        ensures all { length self.now.records ≡ 16 }
    {
        let plan = &self.plan;
        self.records.lowest(|r| {
            matches!(r.stage, Stage::Running { .. })
                && r.run == plan.accelerator(r.accelerator as usize).run
        })
    }

    /// Whom the port writes.
    pub(super) fn choose(&self) -> Option<Place>
        ensures { result ≡ choose self.now }
    {
        if !P::INTERRUPTIBLE {
            let begun = self.records.lowest(|r| matches!(r.stage, Stage::Reserved { .. })
                && r.written > 0);
            if let Some(place) = begun {
                return Some(place);
            }
        }
        self.records
            .lowest(|r| matches!(r.stage, Stage::Reserved { .. }))
    }

    /// The request at `place` is written, and the tick passes for all the others. Tells whether it ended.
    pub(super) fn write(&mut self, place: Place) -> bool
        ensures ended { result ≡ ended_stage (stage_fed self.old place) }
        ensures after { self.new ≡ write self.old place }
    {
        let r = self.records.get(place);
        let stage = feed(&mut self.port, slot_of(r.stage));
        self.records.age();
        self.records.put(place, written(r, stage));
        let Stage::Ended { slot, .. } = stage else {
            return false;
        };
        self.free(self.partition_of(&r), slot);
        true
    }
}

/// Feeds a slot, and tells the stage of its request then.
fn feed<P: Port>(port: &mut P, slot: u32) -> Stage
    ensures is { result ≡ stage_after P.Port.INTERRUPTIBLE (P.Port.meaning port.old) slot }
    ensures after { P.Port.meaning port.new ≡ feed_after P.Port.INTERRUPTIBLE (P.Port.meaning port.old) slot }
{
    match port.feed(slot) {
        Ok(Fed::Flawed { block, board }) => Stage::Ended {
            slot,
            outcome: Outcome::Flaw { block, board },
        },
        Ok(Fed::Wrote(_)) if port.left(slot) == Ok(0) => Stage::Running { slot },
        _ => Stage::Reserved { slot },
    }
}

/// A record that was written.
fn written(r: Record, stage: Stage) -> Record
    ensures { result ≡ fed_record r stage }
{
    Record {
        stage,
        written: r.written.saturating_add(1),
        ..r
    }
}
