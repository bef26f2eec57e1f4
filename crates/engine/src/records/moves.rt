//! How the records are read and changed.

ghost use Rattle.std.specs.Prelude.{◌≡◌, Bool, cond, map, nat_lt, replicate, slice_set};
ghost use Rattle.model.specs.declared.requests.Record.{Record};
ghost use Rattle.model.specs.Records.{at, blank, new, staged, held_stage, lowest, on_found, aged};
ghost use Rattle.engine.specs.Views.{Says};

use crate::places::Place;
use crate::records::Records;
use model::requests::{Record, Stage};

impl Records {
    /// Records that hold no request.
    pub(crate) fn blank() -> Records
        ensures { result.table ≡ replicate 16 blank }
    {
        Records {
            table: [Record::default(); 16],
        }
    }

    pub(crate) fn get(&self, place: Place) -> Record
        ensures { result ≡ at self.now.table place }
    {
        self.table[place.index]
    }

    pub(crate) fn put(&mut self, place: Place, r: Record)
        ensures { self.new.table ≡ slice_set self.old.table place r }
    {
        self.table[place.index] = r;
    }

    pub(crate) fn set_stage(&mut self, place: Place, stage: Stage)
        ensures { self.new.table ≡ slice_set self.old.table place (staged (at self.old.table place) stage) }
    {
        self.table[place.index].stage = stage;
    }

    pub(crate) fn holds(&self, place: Place) -> bool
        ensures { result ≡ held_stage (at self.now.table place).stage }
    {
        self.table[place.index].stage != Stage::Empty
    }

    /// A new request.
    pub(crate) fn enter(&mut self, place: Place, accelerator: u32, ticket: u32)
        ensures { self.new.table ≡ slice_set self.old.table place (new accelerator ticket) }
    {
        self.table[place.index] = Record {
            accelerator,
            ticket,
            stage: Stage::Queued,
            ..Record::default()
        };
    }

    pub(crate) fn empty(&mut self, place: Place)
        ensures { self.new.table ≡ slice_set self.old.table place blank }
    {
        self.table[place.index] = Record::default();
    }

    /// The place of the lower ticket: `n`, or the one found before it.
    fn lower(&self, n: Place, found: Option<Place>) -> Place
        ensures { result ≡ on_found found n (λ i. cond (nat_lt (at self.now.table n).ticket (at self.now.table i).ticket) n i) }
    {
        match found {
            Some(i) if self.get(i).ticket <= self.get(n).ticket => i,
            _ => n,
        }
    }

    /// The place of the lowest ticket among the records that are wanted.
    pub(crate) fn lowest<F: Fn(&Record) -> bool>(&self, wanted: F) -> Option<Place>
        requires { F.IsAlwaysCallable wanted }
        ensures { (p : Record → Bool) → Says F.Fn wanted p → result ≡ lowest p self.now.table }
    {
        let mut found = None;
        for (index, record) in self.table.iter().enumerate() {
            if wanted(record) {
                found = Some(self.lower(Place { index }, found));
            }
        }
        found
    }

    /// The tick passes for every record.
    pub(crate) fn age(&mut self)
        ensures { self.new.table ≡ map aged self.old.table }
    {
        for record in &mut self.table {
            *record = aged(*record);
        }
    }
}

/// A waiting request waits one tick more, a running one runs one tick more.
fn aged(r: Record) -> Record
    ensures { result ≡ aged r }
{
    match r.stage {
        Stage::Queued | Stage::Reserved { .. } => Record {
            waited: r.waited.saturating_add(1),
            ..r
        },
        Stage::Running { .. } => Record {
            run: r.run.saturating_add(1),
            ..r
        },
        Stage::Empty | Stage::Ended { .. } => r,
    }
}
