//! The calls of a scheduler and their answers.

use crate::requests::{Report, Stage};

#[derive(Clone, Copy)]
pub enum Call {
    Request { task: u32, accelerator: u32 },
    Tick,
    Done { slot: u32 },
    Collect { task: u32, ticket: u32 },
    StageOf { task: u32 },
}

/// What an accepted call answers: a ticket; the ticket written, if any, and how many requests ended; the ticket that is
/// done; a report; or a stage.
#[derive(Clone, Copy, PartialEq, Eq, Debug)]
pub enum Answer {
    Ticket(u32),
    Ticked { written: Option<u32>, ended: u32 },
    Completed(u32),
    Collected(Report),
    Stands(Stage),
}
