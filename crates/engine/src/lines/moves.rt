//! How the lines change.

ghost use Rattle.std.specs.Prelude.{◌≡◌, ℕ, ◌+◌, ◌<◌, ◌≤◌, [], drop, slice_index_or, slice_set};
ghost use Rattle.std.specs.List.{range_with_len};
ghost use Rattle.plan.specs.Layouts.{layout};
ghost use Rattle.model.specs.States.{lines_from, first_of};
ghost use Rattle.model.specs.Moves.{joined};
ghost use Rattle.engine.specs.Views.{rows_of};

use crate::lines::Lines;
use arrayvec::ArrayVec;
use plan::plan::Plan;

/// The `n` slots from number `from` on.
fn numbered(from: u32, n: u32) -> ArrayVec<u32, 8>
    requires { (n ≤ 8) × (from ≤ 64) }
    ensures { result.items ≡ range_with_len from n }
{
    let mut line = ArrayVec::new();
    for slot in from..from + n {
        line.push(slot);
    }
    line
}

impl Lines {
    /// All slots of a plan, numbered through its partitions in order.
    pub(crate) fn all_free(plan: &Plan) -> Lines
        ensures { rows_of result ≡ lines_from 0 (layout plan.now).partitions }
    {
        let mut rows = ArrayVec::new();
        let mut from = 0;
        for partition in plan.partitions() {
            rows.push(numbered(from, partition.slots));
            from += partition.slots;
        }
        Lines { rows }
    }

    pub(crate) fn first(&self, k: usize) -> Option<u32>
        ensures { result ≡ first_of (slice_index_or (rows_of self.now) k []) }
    {
        self.rows.get(k)?.first().copied()
    }

    /// The first slot leaves line `k`, if there is one.
    pub(crate) fn leave(&mut self, k: usize)
        ensures { rows_of self.new ≡ slice_set (rows_of self.old) k (drop 1 (slice_index_or (rows_of self.old) k [])) }
    {
        if let Some(line) = self.rows.get_mut(k) {
            line.pop_at(0);
        }
    }

    /// A slot joins the end of line `k`, if there is room.
    pub(crate) fn join(&mut self, k: usize, slot: u32)
        ensures { rows_of self.new ≡ slice_set (rows_of self.old) k (joined (slice_index_or (rows_of self.old) k []) slot) }
    {
        if let Some(line) = self.rows.get_mut(k) {
            // In a run a line always has room: a plan gives a partition no more than 8 slots.
            let _ = line.try_push(slot);
        }
    }
}
