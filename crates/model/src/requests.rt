//! A request on its way from its ticket to its end.

/// How a request ended. A flaw tells the flawed block and the number of the slot on the board.
#[derive(Clone, Copy, PartialEq, Eq, Debug)]
pub enum Outcome {
    Finished,
    Overrun,
    Flaw { block: u32, board: u32 },
}

/// Where a request stands, with its slot once it has one. `Empty` is a record that holds no request.
#[derive(Clone, Copy, PartialEq, Eq, Debug, Default)]
pub enum Stage {
    #[default]
    Empty,
    Queued,
    Reserved { slot: u32 },
    Running { slot: u32 },
    Ended { slot: u32, outcome: Outcome },
}

/// The request of a task, and the ticks that it waited, was written and ran.
#[derive(Clone, Copy, Default)]
pub struct Record {
    pub accelerator: u32,
    pub ticket: u32,
    pub stage: Stage,
    pub waited: u32,
    pub written: u32,
    pub run: u32,
}

/// What is told of an ended request when it is collected.
#[derive(Clone, Copy, PartialEq, Eq, Debug)]
pub struct Report {
    pub accelerator: u32,
    pub slot: u32,
    pub waited: u32,
    pub written: u32,
    pub run: u32,
    pub outcome: Outcome,
}
