//! Configuration ports: what a port means, two kinds of port, and a layer that renumbers slots.

#![tactic(auto)]

pub mod answers;
pub mod delivered;
pub mod interruptible;
pub mod memory;
pub mod port;
pub mod progress;
pub mod renumbered;
pub mod slot;
pub mod slot_map;
mod stored;
#[cfg(test)]
mod tests;
pub mod uninterruptible;
