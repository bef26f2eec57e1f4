//! The delay table of a plan on a port.

ghost use Rattle.std.specs.Prelude.{◌≡◌, ◌<◌, Bool, length};
ghost use Rattle.plan.specs.Layouts.{layout};
ghost use Rattle.delays.specs.Rows.{refusal_number, row_of, table_answer, table_after};

use crate::writing::Writing;
use plan::plan::Plan;
use ports::port::Port;

/// What the table tells of an accelerator, in ticks: how long a request can wait, how long its image takes to write,
/// and how long it can stay in all.
#[derive(Clone, Copy, Debug, Default, PartialEq, Eq)]
pub struct Row {
    pub delay: u32,
    pub write: u32,
    pub stay: u32,
}

/// Why the table is refused.
#[derive(Clone, Copy, Debug, PartialEq, Eq)]
pub enum Refusal {
    TooFewRows,
}

impl Refusal {
    pub fn number(self) -> u32
        ensures { result ≡ refusal_number self }
    {
        match self {
            Refusal::TooFewRows => 40,
        }
    }
}

impl Writing<'_> {
    /// The row of accelerator `a`: the weights are added up first, and the sum is divided once.
    fn row(&self, a: usize) -> Row
        requires { a < length (layout self.now.plan.now).accelerators }
        ensures { result ≡ row_of (layout self.now.plan.now) self.now.rate self.now.interruptible a }
    {
        let accelerator = self.plan.accelerator(a);
        let partition = self.plan.partition(accelerator.partition as usize);
        let sum = self.others(accelerator.partition, partition.slots, accelerator.owner);
        let held = self.held_up(accelerator.partition);
        let delay = (sum / u64::from(partition.slots) + held) as u32;
        let write = self.ticks(partition.size);
        Row {
            delay,
            write,
            stay: delay + write + accelerator.run + 1,
        }
    }
}

/// Fills a row for each accelerator, in order, and leaves further rows as they are. With fewer rows it is refused.
pub fn table<P: Port>(plan: &Plan, port: &P, rows: &mut [Row]) -> Result<(), Refusal>
    ensures answer { result ≡ table_answer (layout plan.now) (length rows.old) }
    ensures after { rows.new ≡ table_after (layout plan.now) (P.Port.meaning port.now).rate P.Port.INTERRUPTIBLE rows.old }
{
    let count = plan.accelerator_count();
    if rows.len() < count {
        return Err(Refusal::TooFewRows);
    }
    let writing = Writing {
        plan,
        rate: port.rate(),
        interruptible: P::INTERRUPTIBLE,
    };
    for (a, row) in rows[..count].iter_mut().enumerate() {
        *row = writing.row(a);
    }
    Ok(())
}
