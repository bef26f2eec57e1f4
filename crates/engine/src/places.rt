//! The places of the table of records.

ghost use Rattle.std.specs.Prelude.{◌≡◌, ℕ, ◌<◌, ◌≤◌, MatchResult};
ghost use Rattle.plan.specs.Layouts.{layout};
ghost use Rattle.plan.specs.Rules.{Rules};

use model::refusals::Refusal;
use plan::plan::Plan;
use std::marker::Model;

/// One of the 16 places. The record of a task stands at the place of the task's number.
#[derive(Clone, Copy)]
pub struct Place {
    pub(crate) index: usize,
}

impl Model for Place {
    ghost Value = { ℕ };

    ghost view = { λ p. p.index };

    ghost invariant = { λ p. p.index < 16 };

    ghost inverse = { λ i. record { index = i } };
}

impl Place {
    /// The place of a task's record, if the plan has the task.
    pub(crate) fn of(task: u32, plan: &Plan) -> Result<Place, Refusal>
        ensures rules { Rules (layout plan.now) }
        ensures is { MatchResult result (λ place. (place ≡ task) × (task < (layout plan.now).tasks)) (λ why. (why ≡ Refusal.NoTask) × ((layout plan.now).tasks ≤ task)) }
    {
        if task >= plan.tasks() {
            return Err(Refusal::NoTask);
        }
        Ok(Place {
            index: task as usize,
        })
    }
}
