//! One reading: its request is watched until it has ended, and its claim is collected.

ghost use Rattle.std.specs.Prelude.{◌≡◌, is_ok, IfOk};
ghost use Rattle.firmware.specs.Readings.{ended_in, Watched, GoesOn, Ready, CollectedIf};

use claims::{Claim, collect_claim};
use engine::scheduler::Scheduler;
use model::refusals::Refusal;
use model::requests::{Report, Stage};
use ports::port::Port;

/// A request that was accepted: its task, its claim, and the ticks that its accelerator can stay.
pub struct Asked {
    pub task: u32,
    pub claim: Claim,
    pub stay: u32,
}

/// What became of a request: what was collected, or why it was refused.
pub type Reading = Result<Report, Refusal>;

/// Whether the request of a task has ended.
fn has_ended<P: Port>(scheduler: &Scheduler<P>, task: u32) -> bool
    ensures { result ≡ ended_in scheduler.now task }
{
    matches!(scheduler.stage(task), Ok(Stage::Ended { .. }))
}

/// The accelerator of task 2 says that it is done as soon as it runs.
fn report_done<P: Port>(scheduler: &mut Scheduler<P>)
    ensures { GoesOn scheduler.old scheduler.new }
{
    if let Ok(Stage::Running { slot }) = scheduler.stage(2) {
        // never refused: the request runs there
        let _ = scheduler.done(slot);
    }
}

/// Ticks until a request has ended: at most as many ticks as it can stay.
fn watch<P: Port>(scheduler: &mut Scheduler<P>, asked: &Asked)
    requires { Ready scheduler.old asked.now }
    ensures { Watched scheduler.old asked.now.claim scheduler.new }
{
    for _ in 0..asked.stay {
        report_done(scheduler);
        if has_ended(scheduler, asked.task) {
            return;
        }
        scheduler.tick();
    }
}

/// Watches a request to its end and collects its claim. A refusal is handed on.
pub fn complete<P: Port>(scheduler: &mut Scheduler<P>, asked: Result<Asked, Refusal>) -> Reading
    requires { IfOk asked (Ready scheduler.old) }
    ensures collected { CollectedIf scheduler.old scheduler.new asked }
    ensures handed_on { is_ok result ≡ is_ok asked }
{
    let asked = asked?;
    watch(scheduler, &asked);
    let Asked {
        task: _,
        mut claim,
        stay: _,
    } = asked;
    collect_claim(scheduler, &mut claim)
}
