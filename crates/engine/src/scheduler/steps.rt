//! How each call is carried out.

ghost use Rattle.std.specs.Prelude.{◌≡◌, Ok};
ghost use Rattle.plan.specs.Rules.{Rules};
ghost use Rattle.model.specs.Calls.{request_answer, request_after, tick_answer, tick_after, done_answer, done_after, collect_answer, collect_after, stage_answer};
ghost use Rattle.model.specs.declared.calls.Answer.TheVariants.{Ticket, Ticked, Completed, Collected, Stands};
ghost use Rattle.engine.specs.Answers.{told};

use crate::places::Place;
use crate::scheduler::Scheduler;
use model::refusals::Refusal;
use model::requests::{Outcome, Record, Report, Stage};
use ports::port::Port;

impl<P: Port> Scheduler<P> {
    /// Accepts a request with the next ticket, or refuses it.
    pub(super) fn accept(&mut self, task: u32, accelerator: u32) -> Result<u32, Refusal>
        ensures rules { Rules self.old.layout }
        ensures answer { told Ticket result ≡ request_answer self.old task accelerator }
        ensures after { self.new ≡ request_after self.old task accelerator }
    {
        let place = Place::of(task, &self.plan)?;
        let wanted = self
            .plan
            .accelerators()
            .get(accelerator as usize)
            .ok_or(Refusal::NoAccelerator)?;
        if wanted.owner != task {
            return Err(Refusal::OtherOwner);
        }
        if self.records.holds(place) {
            return Err(Refusal::Uncollected);
        }
        let ticket = self.next.ok_or(Refusal::NoTicketLeft)?;
        self.records.enter(place, accelerator, ticket);
        self.next = ticket.checked_add(1);
        self.settle();
        Ok(ticket)
    }

    /// Ends the request that runs in a slot, as finished.
    pub(super) fn complete(&mut self, slot: u32) -> Result<u32, Refusal>
        ensures answer { told Completed result ≡ done_answer self.old slot }
        ensures after { self.new ≡ done_after self.old slot }
    {
        if slot >= self.plan.slot_count() {
            return Err(Refusal::NoSlot);
        }
        let place = self
            .records
            .lowest(|r| r.stage == Stage::Running { slot })
            .ok_or(Refusal::NotRunning)?;
        let ticket = self.records.get(place).ticket;
        self.finish(place, Outcome::Finished);
        self.settle();
        Ok(ticket)
    }

    /// Passes a tick: the ticket written, if any, and how many requests ended.
    pub(super) fn pass(&mut self) -> (Option<u32>, u32)
        ensures answer { Ok (Ticked result.0 result.1) ≡ tick_answer self.old }
        ensures after { self.new ≡ tick_after self.old }
    {
        let overrun = self.expire();
        self.settle();
        let Some(place) = self.choose() else {
            self.records.age();
            self.settle();
            return (None, overrun);
        };
        let ticket = self.records.get(place).ticket;
        let flawed = self.write(place);
        self.settle();
        (Some(ticket), overrun + u32::from(flawed))
    }

    /// Tells what became of an ended request and empties its record.
    pub(super) fn hand_over(&mut self, task: u32, ticket: u32) -> Result<Report, Refusal>
        ensures answer { told Collected result ≡ collect_answer self.old task ticket }
        ensures after { self.new ≡ collect_after self.old task ticket }
    {
        let place = Place::of(task, &self.plan)?;
        let r = self.records.get(place);
        if r.stage == Stage::Empty {
            return Err(Refusal::NoRequest);
        }
        if r.ticket != ticket {
            return Err(Refusal::OtherTicket);
        }
        let Stage::Ended { slot, outcome } = r.stage else {
            return Err(Refusal::Unended);
        };
        self.records.empty(place);
        Ok(Report {
            accelerator: r.accelerator,
            slot,
            waited: r.waited,
            written: r.written,
            run: r.run,
            outcome,
        })
    }

    /// Tells the stage of a task's record.
    pub(super) fn look(&self, task: u32) -> Result<Stage, Refusal>
        ensures { told Stands result ≡ stage_answer self.now task }
    {
        let place = Place::of(task, &self.plan)?;
        Ok(self.records.get(place).stage)
    }
}
