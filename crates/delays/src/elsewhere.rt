//! Write times elsewhere: how long a half written slot of another partition can hold up a port.

ghost use Rattle.std.specs.Prelude.{◌≡◌, ◌≤◌, map};
ghost use Rattle.std.specs.List.{range_with_len};
ghost use Rattle.plan.specs.Layouts.{layout};
ghost use Rattle.delays.specs.Delays.{held_up, longest_elsewhere, accelerators_in};
ghost use Rattle.delays.specs.Places.{number_at, place_ticks};

use crate::measure::{Measure, greatest};
use crate::writing::Writing;
use plan::plan::Plan;
use std::array;

/// A partition with its number.
#[derive(Clone, Copy)]
pub struct Numbered {
    pub number: u32,
    pub size: u32,
}

/// What a write time elsewhere depends on besides the partition: the writing, and the partition that is left out.
#[derive(Clone, Copy)]
pub struct Elsewhere<'a> {
    pub writing: Writing<'a>,
    pub partition: u32,
}

/// How many accelerators are loaded into a partition.
fn accelerators_in(plan: &Plan, partition: u32) -> usize
    ensures is { result ≡ accelerators_in (layout plan.now) partition }
    ensures few { result ≤ 32 }
{
    plan.accelerators()
        .iter()
        .map(|accelerator| usize::from(accelerator.partition == partition))
        .sum()
}

/// A partition is measured by its write time, or by 0 where it is left out or has no accelerator.
impl<'a> Measure<Elsewhere<'a>> for Numbered {
    ghost measured = { λ e p. place_ticks (layout e.writing.plan.now) e.writing.rate e.partition p };

    fn measure(&self, context: &Elsewhere<'a>) -> u64 {
        if self.number == context.partition
            || accelerators_in(context.writing.plan, self.number) == 0
        {
            return 0;
        }
        u64::from(context.writing.ticks(self.size))
    }
}

/// As many partitions as a plan can have, with their numbers: those that it lacks have no accelerator.
fn with_numbers(plan: &Plan) -> [Numbered; 8]
    ensures { result ≡ map (number_at (layout plan.now)) (range_with_len 0 8) }
{
    array::from_fn(|k| Numbered {
        number: k as u32,
        size: plan.partition(k).size,
    })
}

impl Writing<'_> {
    /// The longest write time of an accelerator in another partition, or 0 where there is none.
    fn longest_elsewhere(&self, partition: u32) -> u64
        ensures is { result ≡ longest_elsewhere (layout self.now.plan.now) self.now.rate partition }
        ensures small { result ≤ 1000000 }
    {
        let numbered = with_numbers(self.plan);
        greatest(
            &numbered[..self.plan.partition_count()],
            &Elsewhere {
                writing: *self,
                partition,
            },
        )
    }

    /// What half written slots of other partitions can add, where the port cannot be interrupted.
    pub(crate) fn held_up(&self, partition: u32) -> u64
        ensures is { result ≡ held_up (layout self.now.plan.now) self.now.rate self.now.interruptible partition }
        ensures small { result ≤ 32000000 }
    {
        if self.interruptible {
            return 0;
        }
        accelerators_in(self.plan, partition) as u64 * self.longest_elsewhere(partition)
    }
}
