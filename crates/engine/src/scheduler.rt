//! The scheduler over any port.

pub mod calls;
mod moves;
mod settle;
mod start;
mod steps;
mod ticks;

use crate::lines::Lines;
use crate::records::Records;
use plan::plan::Plan;
use ports::port::Port;
use std::marker::Model;

/// Records, lines of free slots and the port change by calls only (`calls`). `next` is the next ticket, if there
/// is one left.
#[derive(Drop)]
pub struct Scheduler<P: Port> {
    plan: Plan,
    port: P,
    records: Records,
    lines: Lines,
    next: Option<u32>,
}

/// Contracts see the state that a scheduler stands for.
impl<P: Port> Model for Scheduler<P> {
    ghost use Rattle.plan.specs.Layouts.{layout};
    ghost use Rattle.model.specs.States.{State};
    ghost use Rattle.engine.specs.Views.{rows_of, next_number};

    ghost Value = { State };

    ghost view = { λ s. record {
      layout = layout s.plan;
      interrupts = P.INTERRUPTIBLE;
      records = s.records.table;
      lines = rows_of s.lines;
      next = next_number s.next;
      port = P.meaning s.port;
    } };
}
