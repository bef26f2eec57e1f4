//! What every row of the table depends on.

ghost use Rattle.std.specs.Prelude.{◌≡◌, ◌≤◌};
ghost use Rattle.delays.specs.Delays.{rounded_up};

use plan::plan::Plan;

/// How images are written: for a plan, at a rate in blocks a tick, by a port that can be interrupted or not.
#[derive(Clone, Copy)]
pub struct Writing<'a> {
    pub plan: &'a Plan,
    pub rate: u32,
    pub interruptible: bool,
    ghost paced: { 1 ≤ rate },
}

impl Writing<'_> {
    /// The ticks that it takes to write a slot of so many blocks.
    pub(crate) fn ticks(&self, size: u32) -> u32
        ensures is { result ≡ rounded_up size self.now.rate }
        ensures small { result ≤ size }
    {
        size.div_ceil(self.rate)
    }
}
