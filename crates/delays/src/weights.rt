//! Weights: what a request of another task can take from a request.

ghost use Rattle.std.specs.Prelude.{◌≡◌, ◌≤◌};
ghost use Rattle.plan.specs.Layouts.{layout};
ghost use Rattle.delays.specs.Delays.{weight_for, others};

use crate::measure::{Measure, greatest};
use crate::writing::Writing;
use plan::parts::Accelerator;

/// What a weight depends on besides the accelerator: the writing, the partition that is waited for and how many slots it
/// has, and the task whose accelerators count.
#[derive(Clone, Copy)]
pub struct Weighing<'a> {
    pub writing: Writing<'a>,
    pub partition: u32,
    pub slots: u32,
    pub task: u32,
}

/// An accelerator is measured by its weight, or by 0 where another task owns it.
impl<'a> Measure<Weighing<'a>> for Accelerator {
    ghost measured = { λ w b. weight_for (layout w.writing.plan.now) w.writing.rate w.partition w.slots w.task b };

    fn measure(&self, context: &Weighing<'a>) -> u64 {
        if self.owner != context.task {
            return 0;
        }
        let size = context.writing.plan.partition(self.partition as usize).size;
        let written = u64::from(context.slots) * u64::from(context.writing.ticks(size));
        if self.partition == context.partition {
            written + u64::from(self.run)
        } else {
            written
        }
    }
}

impl Writing<'_> {
    /// The sum over the other tasks of the greatest weight among their accelerators.
    pub(crate) fn others(&self, partition: u32, slots: u32, owner: u32) -> u64
        requires { slots ≤ 8 }
        ensures is { result ≡ others (layout self.now.plan.now) self.now.rate partition slots owner }
        ensures small { result ≤ 144000000 }
    {
        (0..self.plan.tasks())
            .map(|task| {
                if task == owner {
                    return 0;
                }
                let weighing = Weighing {
                    writing: *self,
                    partition,
                    slots,
                    task,
                };
                greatest(self.plan.accelerators(), &weighing)
            })
            .sum()
    }
}
