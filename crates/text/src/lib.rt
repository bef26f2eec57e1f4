//! Readers of numbers, fields and lines over bytes: what plan texts and scripts have in common.
//! Each answers what it read and the place after it, or `Malformed`; none asks anything of its caller.

#![tactic(auto)]

pub mod lines;
pub mod numbers;
