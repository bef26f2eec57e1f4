//! The delivered sample: a cabinet's readings on both kinds of port, over the renumbering layer. It goes by claims only.

#![tactic(auto)]

mod readings;
mod rounds;
mod told;

use plan::plan::Plan;
use plan::plan::read::read;
use ports::delivered::Delivered;
use ports::interruptible::EverySlot;
use ports::memory::Memory;
use ports::slot_map::SlotMap;
use ports::uninterruptible::OneSlot;
use readings::Reading;
use rounds::serve;
use std::io;
use told::Told;

/// Two partitions of one slot each, three tasks, four accelerators.
const PLAN: &[u8] =
    b"c 100 2 4 3\np 40 1 40\np 20 1 20\na 0 0 40 4\na 0 0 30 5\na 1 1 20 4\na 1 2 10 6\n";

/// Two rounds of readings on a new port of a kind, on which a block may be flawed.
fn served<M: Memory + Drop>(flaw: Option<u32>) -> anyhow::Result<[[Reading; 3]; 2]> {
    let mut plan = Plan::empty();
    read(PLAN, &mut plan)?;
    let mut map = SlotMap::identity();
    map.exchange(0, 5)?;
    let mut port = Delivered::<M>::new(5)?;
    if let Some(block) = flaw {
        port.set_flaw(5, block)?;
    }
    Ok(serve(plan, port, map))
}

fn demonstrate<M: Memory + Drop>(rt: &HostRuntime, flaw: Option<u32>) -> io::Result<()> {
    let rounds = match served::<M>(flaw) {
        Ok(rounds) => rounds,
        Err(refused) => return println!(rt; "{refused}"),
    };
    for round in rounds {
        for (task, &reading) in round.iter().enumerate() {
            println!(rt; "task {task}: {}", Told(reading))?;
        }
    }
    Ok(())
}

/// Both on a sound port and on one with a flawed block.
fn show<M: Memory + Drop>(rt: &HostRuntime, name: &str) -> io::Result<()> {
    println!(rt; "{name}")?;
    demonstrate::<M>(rt, None)?;
    println!(rt; "with a flawed block")?;
    demonstrate::<M>(rt, Some(22))
}

// What fails here is a print alone, and is told as the runner tells it.
fn main(rt: HostRuntime) -> io::Result<()> {
    show::<EverySlot>(&rt, "a port that can be interrupted")?;
    show::<OneSlot>(&rt, "a port that cannot be interrupted")
}
