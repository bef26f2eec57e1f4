//! Claims for firmware: an accepted request hands over a claim, which only an accepted collection gives back.
//! The check refuses firmware that lets a claim go uncollected or collects one twice (`Drop` and `collect_claim`).

#![tactic(auto)]

ghost use Rattle.std.specs.Prelude.{◌≡◌, IfOk};
ghost use Rattle.engine.specs.Answers.{told};
ghost use Rattle.engine.specs.Overs.{StateOver};
ghost use Rattle.model.specs.declared.calls.Answer.TheVariants.{Collected};
ghost use Rattle.model.specs.declared.calls.Call.TheVariants.{Request, Collect};
ghost use Rattle.model.specs.Laws.{Performed};
ghost use Rattle.claims.specs.Claims.{Spent, claimed, Names, after};
ghost use Rattle.claims.specs.Awaits.{HandsOver, GivesBack};

use engine::scheduler::Scheduler;
use model::refusals::Refusal;
use model::requests::Report;
use ports::port::Port;

/// The number that a spent claim has for its task: no plan has a task 16. (A claim is to be two numbers, with no room for
/// an `Option`.)
const NO_TASK: u32 = 16;

/// The right to collect a request: its task and its ticket.
pub struct Claim {
    task: u32,
    ticket: u32,
}

impl Drop for Claim {
    /// A claim may be let go only when it is spent.
    fn drop(self)
        requires { Spent self }
    {
        let Claim { task: _, ticket: _ } = self;
    }
}

/// As `request` of the scheduler, with the ticket as a claim.
pub fn request_claim<P: Port>(
    scheduler: &mut Scheduler<P>,
    task: u32,
    accelerator: u32,
) -> Result<Claim, Refusal>
    ensures performed { Performed scheduler.old (Request task accelerator) (claimed result) scheduler.new }
    ensures names { IfOk result (Names task) }
    ensures over { StateOver P.Port scheduler.old × StateOver P.Port scheduler.new }
    ensures handed_over { HandsOver scheduler.old accelerator scheduler.new result }
{
    let ticket = scheduler.request(task, accelerator)?;
    Ok(Claim { task, ticket })
}

/// As `collect` of the scheduler, by the claim. Accepted, it spends the claim; refused, it leaves it as it was.
/// A spent claim cannot be collected: the check asks for one that is not.
pub fn collect_claim<P: Port>(
    scheduler: &mut Scheduler<P>,
    claim: &mut Claim,
) -> Result<Report, Refusal>
    requires { Spent claim.old → ⊥ }
    ensures performed { Performed scheduler.old (Collect claim.old.task claim.old.ticket) (told Collected result) scheduler.new }
    ensures claim { claim.new ≡ after claim.old result }
    ensures over { StateOver P.Port scheduler.old × StateOver P.Port scheduler.new }
    ensures given_back { GivesBack scheduler.old claim.old scheduler.new result }
{
    let report = scheduler.collect(claim.task, claim.ticket)?;
    claim.task = NO_TASK;
    Ok(report)
}
