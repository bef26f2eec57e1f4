//! How a scheduler starts.

ghost use Rattle.std.specs.Prelude.{◌≡◌};
ghost use Rattle.plan.specs.Layouts.{layout};
ghost use Rattle.model.specs.States.{start, shut_below};

use crate::lines::Lines;
use crate::records::Records;
use crate::scheduler::Scheduler;
use plan::plan::Plan;
use ports::port::Port;

/// Shuts all slots of a port.
fn shut_all<P: Port>(port: &mut P)
    ensures { P.Port.meaning port.new ≡ shut_below 32 (P.Port.meaning port.old) }
{
    for slot in 0..32 {
        // No port refuses to shut one of its 32 slots.
        let _ = port.shut(slot);
    }
}

impl<P: Port> Scheduler<P> {
    /// All slots shut and in line, no request, and `first` as the next ticket.
    pub(super) fn fresh(plan: Plan, mut port: P, first: u32) -> Scheduler<P>
        ensures { result ≡ start (layout plan) P.Port.INTERRUPTIBLE first (P.Port.meaning port) }
    {
        shut_all(&mut port);
        let lines = Lines::all_free(&plan);
        Scheduler {
            plan,
            port,
            records: Records::blank(),
            lines,
            next: Some(first),
        }
    }
}
