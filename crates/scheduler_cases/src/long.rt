//! Long runs of calls by chance.

use crate::plan_of;
use engine::scheduler::Scheduler;
use model::calls::{Answer, Call};
use model::refusals::Refusal;
use ports::delivered::Delivered;
use ports::memory::Memory;
use ports::port::Port;
use ports::renumbered::Renumbered;
use ports::slot_map::SlotMap;

/// Four slots, four tasks.
const FOUR_SLOTS: &[u8] =
    b"c 100 2 6 4\np 40 2 20\np 40 2 15\na 0 0 20 4\na 0 1 20 3\na 1 1 15 2\na 1 2 10 5\na 0 3 7 1\na 1 3 15 6\n";

/// The next of a row of numbers that look like chance.
fn shuffled(x: u64) -> u64 {
    x.wrapping_mul(1_103_515_245).wrapping_add(12_345) % 2_147_483_648
}

/// A call that a number stands for; `tickets` are the last ticket of each task.
fn call_of(x: u64, tickets: &[u32; 4]) -> Call {
    let task = (x / 8 % 4) as u32;
    match x / 65_536 % 8 {
        0 | 1 => Call::Request {
            task,
            accelerator: (x / 32 % 7) as u32,
        },
        2 => Call::Done {
            slot: (x / 32 % 5) as u32,
        },
        3 => Call::Collect {
            task,
            ticket: tickets[task as usize],
        },
        4 => Call::StageOf { task },
        _ => Call::Tick,
    }
}

/// What came of a long run.
#[derive(Default, Drop)]
struct Tally {
    given: u32,
    ended: u32,
    collected: u32,
    waited: u32,
    refused: u32,
}

impl Tally {
    fn count(&mut self, answer: Result<Answer, Refusal>) {
        match answer {
            Ok(Answer::Ticket(_)) => self.given = self.given.saturating_add(1),
            Ok(Answer::Ticked { ended, .. }) => self.ended = self.ended.saturating_add(ended),
            Ok(Answer::Collected(report)) => {
                self.collected = self.collected.saturating_add(1);
                self.waited = self.waited.saturating_add(report.waited);
            }
            Ok(Answer::Completed(_) | Answer::Stands(_)) => {}
            Err(_) => self.refused = self.refused.saturating_add(1),
        }
    }
}

/// Makes `turns` calls by chance and tells what came of them.
fn run_long<P: Port + Drop>(rt: &HostRuntime, port: P, turns: u32) -> anyhow::Result<()> {
    let mut scheduler = Scheduler::start(plan_of(FOUR_SLOTS)?, port, 1);
    let mut tickets = [0; 4];
    let mut tally = Tally::default();
    let mut x = 1;
    for _ in 0..turns {
        x = shuffled(x);
        let call = call_of(x, &tickets);
        let answer = scheduler.perform(call);
        if let (Call::Request { task, .. }, Ok(Answer::Ticket(ticket))) = (call, answer) {
            if let Some(last) = tickets.get_mut(task as usize) {
                *last = ticket;
            }
        }
        tally.count(answer);
    }
    let Tally {
        given,
        ended,
        collected,
        waited,
        refused,
    } = tally;
    println!(rt;
        "{turns} calls over two layers: {given} tickets given, {collected} collected after {waited} ticks of waiting"
    )?;
    println!(rt; "{ended} requests ended in ticks, {refused} calls refused")?;
    Ok(())
}

/// A long run over two layers that are piled on a port of a kind.
pub fn run_over_layers<M: Memory + Drop>(rt: &HostRuntime) -> anyhow::Result<()> {
    let mut map = SlotMap::identity();
    map.exchange(0, 3)?;
    map.exchange(1, 30)?;
    let port = Delivered::<M>::new(2)?;
    run_long(rt, Renumbered::new(Renumbered::new(port, map), map), 20_000)
}
