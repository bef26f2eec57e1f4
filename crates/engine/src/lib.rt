//! The scheduler over any port: start, request, tick, done, collect and stage.
//! Each public call equals its definition in `model`, and every run of calls keeps the promises on waits, tickets, slots and
//! images (`scheduler/calls.rt`).

#![tactic(auto)]

mod lines;
mod places;
mod records;
pub mod scheduler;
