//! Readings as the sample prints them.

use crate::readings::Reading;
use model::requests::{Outcome, Report};
use std::fmt;

/// What became of a reading.
#[derive(Clone, Copy)]
pub struct Told(pub Reading);

impl fmt::Display for Told {
    fn fmt<W: fmt::Write>(&self, f: &mut fmt::Formatter<W>) -> fmt::Result {
        let Report {
            accelerator,
            slot,
            waited,
            written,
            run,
            outcome,
        } = match self.0 {
            Ok(report) => report,
            Err(refusal) => return write!(f, "refused with {}", refusal.number()),
        };
        write!(
            f,
            "accelerator {accelerator} in slot {slot} waited {waited}, was written in {written} and ran {run}, "
        )?;
        match outcome {
            Outcome::Finished => write!(f, "finished"),
            Outcome::Overrun => write!(f, "overran"),
            Outcome::Flaw { block, board } => write!(
                f,
                "block {block} of board slot {board} is flawed"
            ),
        }
    }
}
