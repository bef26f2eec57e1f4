//! Runs of the scheduler, and what each call answers.

#![tactic(auto)]

mod cases;
mod long;
mod told;

use cases::{CONTEST, Case, LAST_TICKET, LAST_TICKS};
use engine::scheduler::Scheduler;
use long::run_over_layers;
use plan::plan::Plan;
use plan::plan::read::read;
use ports::delivered::Delivered;
use ports::interruptible::EverySlot;
use ports::memory::Memory;
use ports::uninterruptible::OneSlot;
use told::Told;

/// The plan that a text says.
fn plan_of(text: &[u8]) -> anyhow::Result<Plan> {
    let mut plan = Plan::empty();
    read(text, &mut plan)?;
    Ok(plan)
}

/// Makes the calls on a port of a kind that writes 10 blocks a tick, and prints their answers.
fn run<M: Memory + Drop>(rt: &HostRuntime, name: &str, case: &Case) -> anyhow::Result<()> {
    println!(rt; "{name}")?;
    let port = Delivered::<M>::new(10)?;
    let mut scheduler = Scheduler::start(plan_of(case.plan)?, port, case.first);
    for &call in case.calls {
        println!(rt; "{}", Told(scheduler.perform(call)))?;
    }
    Ok(())
}

fn main(rt: HostRuntime) -> anyhow::Result<()> {
    for case in [CONTEST, LAST_TICKS, LAST_TICKET] {
        run::<EverySlot>(&rt, "on a port that can be interrupted", &case)?;
        run::<OneSlot>(&rt, "on a port that cannot", &case)?;
    }
    run_over_layers::<EverySlot>(&rt)?;
    run_over_layers::<OneSlot>(&rt)
}
