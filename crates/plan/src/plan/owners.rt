//! What an accelerator may name.

ghost use Rattle.std.specs.Prelude.{◌≤◌, length};

use crate::parts::Partition;

/// The partitions and the number of tasks, at least one of each.
#[derive(Clone, Copy)]
pub struct Owners<'a> {
    pub partitions: &'a [Partition],
    pub tasks: u32,
    ghost some: { (1 ≤ length partitions.now) × (1 ≤ tasks) },
    ghost few: { length partitions.now ≤ 8 },
}
