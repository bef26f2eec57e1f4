//! Why a call of the scheduler is refused.

ghost use Rattle.std.specs.Prelude.{◌≡◌};
ghost use Rattle.model.specs.Refusals.{refusal_number};

/// Why a call is refused.
#[derive(Clone, Copy, PartialEq, Eq, Debug)]
pub enum Refusal {
    /// A task that the plan does not have.
    NoTask,
    /// An accelerator that the plan does not have.
    NoAccelerator,
    /// An accelerator that another task owns.
    OtherOwner,
    /// The task's last request is not collected yet.
    Uncollected,
    /// The last ticket has been given.
    NoTicketLeft,
    /// A slot that the plan does not have.
    NoSlot,
    /// No request runs in the slot.
    NotRunning,
    /// The task has no request.
    NoRequest,
    /// The task's request has another ticket.
    OtherTicket,
    /// The task's request has not ended.
    Unended,
}

impl Refusal {
    /// The number by which the refusal is known outside.
    pub fn number(self) -> u32
        ensures { result ≡ refusal_number self }
    {
        match self {
            Refusal::NoTask => 10,
            Refusal::NoAccelerator => 11,
            Refusal::OtherOwner => 12,
            Refusal::Uncollected => 13,
            Refusal::NoTicketLeft => 14,
            Refusal::NoSlot => 20,
            Refusal::NotRunning => 21,
            Refusal::NoRequest => 30,
            Refusal::OtherTicket => 31,
            Refusal::Unended => 32,
        }
    }
}
