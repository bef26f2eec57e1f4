//! Plans and the calls that are made on them. (A constant may call no function, so each call is written out.)

use model::calls::Call::{self, Collect, Done, Request, Tick};

/// The text of a plan, the first ticket, and the calls.
#[derive(Clone, Copy)]
pub struct Case {
    pub plan: &'static [u8],
    pub first: u32,
    pub calls: &'static [Call],
}

/// Two partitions of one slot, three tasks.
const TWO_PARTITIONS: &[u8] =
    b"c 100 2 4 3\np 40 1 40\np 20 1 20\na 0 0 40 4\na 0 0 30 5\na 1 1 20 4\na 1 2 10 6\n";

/// Two partitions of one slot of 40 blocks, three tasks.
const EQUAL_SLOTS: &[u8] =
    b"c 80 2 3 3\np 40 1 40\np 40 1 40\na 0 0 40 1\na 0 1 40 2\na 1 2 40 3\n";

/// An older request takes the port from a younger one, but not on a port that cannot be interrupted.
pub const CONTEST: Case = Case {
    plan: TWO_PARTITIONS,
    first: 1,
    calls: &[
        Request {
            task: 0,
            accelerator: 0,
        },
        Tick,
        Request {
            task: 1,
            accelerator: 2,
        },
        Tick,
        Request {
            task: 2,
            accelerator: 3,
        },
        Tick,
        Tick,
        Tick,
        Tick,
        Tick,
        Tick,
        Done { slot: 0 },
        Collect { task: 0, ticket: 1 },
        Tick,
        Request {
            task: 0,
            accelerator: 1,
        },
        Tick,
        Done { slot: 1 },
        Tick,
        Collect { task: 1, ticket: 2 },
        Tick,
        Tick,
        Tick,
        Tick,
        Tick,
        Tick,
        Tick,
        Tick,
        Tick,
        Tick,
        Tick,
        Tick,
        Tick,
        Collect { task: 0, ticket: 4 },
        Collect { task: 2, ticket: 3 },
    ],
};

/// Every request runs to its very last tick. Request 2 gets the slot that request 1 held, and takes the port from
/// request 3, whose image is half loaded.
pub const LAST_TICKS: Case = Case {
    plan: EQUAL_SLOTS,
    first: 1,
    calls: &[
        Request {
            task: 0,
            accelerator: 0,
        },
        Tick,
        Tick,
        Tick,
        Tick,
        Request {
            task: 1,
            accelerator: 1,
        },
        Request {
            task: 2,
            accelerator: 2,
        },
        Tick,
        Tick,
        Tick,
        Tick,
        Tick,
        Tick,
        Tick,
        Tick,
        Tick,
        Tick,
        Tick,
        Tick,
        Tick,
        Collect { task: 0, ticket: 1 },
        Collect { task: 1, ticket: 2 },
        Collect { task: 2, ticket: 3 },
    ],
};

/// There is one ticket left.
pub const LAST_TICKET: Case = Case {
    plan: TWO_PARTITIONS,
    first: 4_294_967_295,
    calls: &[
        Request {
            task: 0,
            accelerator: 0,
        },
        Request {
            task: 0,
            accelerator: 0,
        },
        Request {
            task: 1,
            accelerator: 2,
        },
    ],
};
