//! A plan, which keeps its rules as long as it exists.

pub mod ask;
mod contents;
mod left;
mod owners;
pub mod read;

ghost use Rattle.plan.specs.Rules.{Rules};

use crate::parts::{Accelerator, Partition};
use arrayvec::ArrayVec;

#[derive(Drop)]
pub struct Plan {
    fabric: u32,
    tasks: u32,
    partitions: ArrayVec<Partition, 8>,
    accelerators: ArrayVec<Accelerator, 32>,
    ghost rules: { Rules (record { fabric = fabric; tasks = tasks; partitions = partitions.items; accelerators = accelerators.items }) },
}
