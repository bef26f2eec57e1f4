//! The calls of the scheduler, and what they promise of every run.

ghost use Rattle.std.specs.Prelude.{◌≡◌, Ok};
ghost use Rattle.plan.specs.Layouts.{layout};
ghost use Rattle.plan.specs.Rules.{Rules};
ghost use Rattle.model.specs.declared.calls.Answer.TheVariants.{Ticket, Ticked, Completed, Collected, Stands};
ghost use Rattle.model.specs.declared.calls.Call.TheVariants.{Request, Tick, Done, Collect, StageOf};
ghost use Rattle.model.specs.Laws.{Opened, Performed};
ghost use Rattle.model.specs.States.{start};
ghost use Rattle.engine.specs.Answers.{told};
ghost use Rattle.engine.specs.Overs.{StateOver};

use crate::scheduler::Scheduler;
use model::calls::{Answer, Call};
use model::refusals::Refusal;
use model::requests::{Report, Stage};
use plan::plan::Plan;
use ports::port::Port;

impl<P: Port> Scheduler<P> {
    /// A scheduler with a plan, a port and its first ticket. It shuts all slots of the port.
    pub fn start(plan: Plan, port: P, first: u32) -> Scheduler<P>
        ensures is { result ≡ start (layout plan) P.Port.INTERRUPTIBLE first (P.Port.meaning port) }
        ensures opened { Opened (layout plan) P.Port.INTERRUPTIBLE first result }
        ensures over { StateOver P.Port result }
    {
        let scheduler = Scheduler::fresh(plan, port, first);
        scheduler.over();
        scheduler
    }

    /// Asks for an accelerator on behalf of a task, and answers the ticket.
    pub fn request(&mut self, task: u32, accelerator: u32) -> Result<u32, Refusal>
        ensures rules { Rules self.old.layout }
        ensures performed { Performed self.old (Request task accelerator) (told Ticket result) self.new }
        ensures over { StateOver P.Port self.old × StateOver P.Port self.new }
    {
        self.over();
        let ticket = self.accept(task, accelerator);
        self.over();
        ticket
    }

    /// Lets a tick pass, and answers the ticket that was written, if any, and how many requests ended.
    pub fn tick(&mut self) -> (Option<u32>, u32)
        ensures performed { Performed self.old Tick (Ok (Ticked result.0 result.1)) self.new }
        ensures over { StateOver P.Port self.old × StateOver P.Port self.new }
    {
        self.over();
        let ticked = self.pass();
        self.over();
        ticked
    }

    /// Says that the accelerator in a slot is done, and answers the ticket of its request.
    pub fn done(&mut self, slot: u32) -> Result<u32, Refusal>
        ensures performed { Performed self.old (Done slot) (told Completed result) self.new }
        ensures over { StateOver P.Port self.old × StateOver P.Port self.new }
    {
        self.over();
        let ticket = self.complete(slot);
        self.over();
        ticket
    }

    /// Collects an ended request, and answers what became of it.
    pub fn collect(&mut self, task: u32, ticket: u32) -> Result<Report, Refusal>
        ensures performed { Performed self.old (Collect task ticket) (told Collected result) self.new }
        ensures over { StateOver P.Port self.old × StateOver P.Port self.new }
    {
        self.over();
        let report = self.hand_over(task, ticket);
        self.over();
        report
    }

    /// The stage of a task's request. It changes nothing.
    pub fn stage(&self, task: u32) -> Result<Stage, Refusal>
        ensures performed { Performed self.now (StageOf task) (told Stands result) self.now }
        ensures over { StateOver P.Port self.now }
    {
        self.over();
        self.look(task)
    }

    /// Makes any of these calls. Programs that take calls as values go by this one.
    pub fn perform(&mut self, call: Call) -> Result<Answer, Refusal>
        ensures performed { Performed self.old call result self.new }
        ensures over { StateOver P.Port self.old × StateOver P.Port self.new }
    {
        Ok(match call {
            Call::Request { task, accelerator } => Answer::Ticket(self.request(task, accelerator)?),
            Call::Tick => {
                let (written, ended) = self.tick();
                Answer::Ticked { written, ended }
            }
            Call::Done { slot } => Answer::Completed(self.done(slot)?),
            Call::Collect { task, ticket } => Answer::Collected(self.collect(task, ticket)?),
            Call::StageOf { task } => Answer::Stands(self.stage(task)?),
        })
    }

    /// It does nothing: what it tells is true of every scheduler.
    fn over(&self)
        ensures { StateOver P.Port self.now }
    {
        let _ = &self.plan;
    }
}
