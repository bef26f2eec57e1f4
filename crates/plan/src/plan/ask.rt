//! The empty plan, and the questions on a plan. Each has an answer for every number.

ghost use Rattle.std.specs.Prelude.{◌≡◌, ◌≤◌, length, slice_index_or};
ghost use Rattle.plan.specs.Layouts.{layout};
ghost use Rattle.plan.specs.Rules.{Blank, none, idle};
ghost use Rattle.plan.specs.Slots.{Found, slot_count};

use crate::parts::{Accelerator, Partition};
use crate::plan::Plan;
use arrayvec::ArrayVec;

impl Plan {
    /// The built-in plan that has nothing.
    pub fn empty() -> Plan
        ensures { Blank (layout result) }
    {
        Plan {
            fabric: 0,
            tasks: 0,
            partitions: ArrayVec::new(),
            accelerators: ArrayVec::new(),
        }
    }

    /// The blocks of the whole fabric.
    pub fn fabric(&self) -> u32
        ensures { result ≡ (layout self.now).fabric }
    {
        self.fabric
    }

    /// How many software tasks there are.
    pub fn tasks(&self) -> u32
        ensures is { result ≡ (layout self.now).tasks }
        ensures few { result ≤ 16 }
    {
        self.tasks
    }

    pub fn partition_count(&self) -> usize
        ensures is { result ≡ length (layout self.now).partitions }
        ensures few { result ≤ 8 }
    {
        self.partitions.len()
    }

    pub fn accelerator_count(&self) -> usize
        ensures is { result ≡ length (layout self.now).accelerators }
        ensures few { result ≤ 32 }
    {
        self.accelerators.len()
    }

    /// Partition `k`, or one of zeros where the plan has none of that number.
    pub fn partition(&self, k: usize) -> Partition
        ensures is { result ≡ slice_index_or (layout self.now).partitions k none }
        ensures few { (result.slots ≤ 8) × (result.size ≤ 1000000) }
    {
        self.partitions.get(k).copied().unwrap_or_default()
    }

    /// Accelerator `a`, or one of zeros where the plan has none of that number.
    pub fn accelerator(&self, a: usize) -> Accelerator
        ensures is { result ≡ slice_index_or (layout self.now).accelerators a idle }
        ensures few { result.run ≤ 1000000 }
    {
        self.accelerators.get(a).copied().unwrap_or_default()
    }

    /// All partitions, in order.
    pub fn partitions(&self) -> &[Partition]
        ensures { result.now ≡ (layout self.now).partitions }
    {
        &self.partitions
    }

    /// All accelerators, in order.
    pub fn accelerators(&self) -> &[Accelerator]
        ensures { result.now ≡ (layout self.now).accelerators }
    {
        &self.accelerators
    }

    /// How many slots the partitions have together.
    pub fn slot_count(&self) -> u32
        ensures is { result ≡ slot_count (layout self.now) }
        ensures few { result ≤ 32 }
    {
        self.partitions
            .iter()
            .map(|partition| partition.slots)
            .sum()
    }

    /// The partition that a slot is in. Slots are numbered through the partitions in order.
    pub fn partition_of(&self, slot: u32) -> Option<usize>
        ensures { Found (layout self.now) slot result }
    {
        let mut after = 0;
        for (k, partition) in self.partitions.iter().enumerate() {
            after += partition.slots;
            if slot < after {
                return Some(k);
            }
        }
        None
    }
}
