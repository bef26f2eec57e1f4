//! Plans: what the fabric, its partitions, the accelerators and the tasks of a cabinet are.
//! A `Plan` keeps the rules of plans as long as it exists; `read` fills one from a text or tells the first fault.

#![tactic(auto)]

pub mod faults;
mod kinds;
pub mod parts;
pub mod plan;
