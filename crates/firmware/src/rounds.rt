//! Rounds of readings: three tasks ask at once, and each claim is collected before the next round.

ghost use Rattle.std.specs.Prelude.{◌≡◌, IfOk};
ghost use Rattle.firmware.specs.Readings.{GoesOn, Ready, Of};
ghost use Rattle.firmware.specs.Rounds.{stay_at, Serving};

use crate::readings::{Asked, Reading, complete};
use claims::request_claim;
use delays::table::{Row, table};
use engine::scheduler::Scheduler;
use model::refusals::Refusal;
use plan::plan::Plan;
use ports::delivered::Delivered;
use ports::memory::Memory;
use ports::port::Port;
use ports::renumbered::Renumbered;
use ports::slot_map::SlotMap;

/// The stay of an accelerator in the delay table; 0 where there is no row for it.
fn stay_of(rows: &[Row; 32], accelerator: u32) -> u32
    ensures { result ≡ stay_at rows.now accelerator }
{
    rows.get(accelerator as usize).map_or(0, |row| row.stay)
}

/// A task asks for its accelerator.
fn ask<P: Port>(
    scheduler: &mut Scheduler<P>,
    rows: &[Row; 32],
    task: u32,
    accelerator: u32,
) -> Result<Asked, Refusal>
    requires { Serving scheduler.old rows.now }
    ensures serving { Serving scheduler.new rows.now }
    ensures goes_on { GoesOn scheduler.old scheduler.new }
    ensures of { IfOk result (Of task) }
    ensures ready { IfOk result (Ready scheduler.new) }
{
    let claim = request_claim(scheduler, task, accelerator)?;
    Ok(Asked {
        task,
        claim,
        stay: stay_of(rows, accelerator),
    })
}

/// Each task asks for its accelerator, and then each claim is collected.
fn round<M: Memory + Drop>(
    scheduler: &mut Scheduler<Renumbered<Delivered<M>>>,
    rows: &[Row; 32],
    accelerators: [u32; 3],
) -> [Reading; 3]
    requires { Serving scheduler.old rows.now }
    ensures { Serving scheduler.new rows.now }
{
    let [a, b, c] = accelerators;
    // tasks 1 and 2 share a slot: the one that waits for it can interrupt the writing for task 0
    // (each claim has a name: an array of what may not be let go has no `map`)
    let second = ask(scheduler, rows, 1, b);
    let third = ask(scheduler, rows, 2, c);
    let first = ask(scheduler, rows, 0, a);
    let first = complete(scheduler, first);
    let second = complete(scheduler, second);
    let third = complete(scheduler, third);
    [first, second, third]
}

/// A start and two rounds, with the stays of the delay table as the time to wait.
pub fn serve<M: Memory + Drop>(plan: Plan, port: Delivered<M>, map: SlotMap) -> [[Reading; 3]; 2] {
    let port = Renumbered::new(port, map);
    let mut rows = [Row::default(); 32];
    // no plan has more accelerators than there are rows
    let _ = table(&plan, &port, &mut rows);
    let mut scheduler = Scheduler::start(plan, port, 1);
    let first = round(&mut scheduler, &rows, [0, 2, 3]);
    let second = round(&mut scheduler, &rows, [1, 2, 3]);
    [first, second]
}
