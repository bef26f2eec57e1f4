//! Answers as the program prints them.

use model::calls::Answer;
use model::refusals::Refusal;
use model::requests::{Outcome, Report};
use std::fmt;

/// What a call answers.
#[derive(Clone, Copy)]
pub struct Told(pub Result<Answer, Refusal>);

impl fmt::Display for Told {
    fn fmt<W: fmt::Write>(&self, f: &mut fmt::Formatter<W>) -> fmt::Result {
        match self.0 {
            Ok(Answer::Ticket(ticket)) => write!(f, "ticket {ticket}"),
            Ok(
                Answer::Ticked {
                    written: Some(ticket),
                    ended,
                },
            ) => write!(f, "tick {ticket} {ended}"),
            Ok(
                Answer::Ticked {
                    written: None,
                    ended,
                },
            ) => write!(f, "tick - {ended}"),
            Ok(Answer::Completed(ticket)) => write!(f, "done {ticket}"),
            Ok(Answer::Collected(report)) => write!(f, "{}", Ended(report)),
            Ok(Answer::Stands(stage)) => write!(f, "{stage:?}"),
            Err(refusal) => write!(f, "no {}", refusal.number()),
        }
    }
}

/// How a request ended, and its counts.
#[derive(Clone, Copy)]
struct Ended(Report);

impl fmt::Display for Ended {
    fn fmt<W: fmt::Write>(&self, f: &mut fmt::Formatter<W>) -> fmt::Result {
        let Report {
            accelerator,
            slot,
            waited,
            written,
            run,
            outcome,
        } = self.0;
        let name = match outcome {
            Outcome::Finished => "finished",
            Outcome::Overrun => "overrun",
            Outcome::Flaw { .. } => "flaw",
        };
        write!(f, "{name} {accelerator} {slot} {waited} {written} {run}")?;
        if let Outcome::Flaw { block, board } = outcome {
            write!(f, " {block} {board}")?;
        }
        Ok(())
    }
}
