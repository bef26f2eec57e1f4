//! The runner's logic: a plan text and a script in, a transcript out.

#![tactic(auto)]

mod decimals;
mod lines;
mod refusals;
pub mod transcript;
