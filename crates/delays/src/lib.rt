//! The delay table: how long a request can wait, how long its image takes to write, and how long it can stay.
//! Sums are made first and divided once; the greatest of anything is found by one text, `greatest`.

#![tactic(auto)]

mod elsewhere;
pub mod measure;
pub mod table;
mod weights;
mod writing;
