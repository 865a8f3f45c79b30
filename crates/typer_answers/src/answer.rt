//! All replies to an input.

use crate::lines::Lines;
use crate::reply::Reply;
use std::alloc::{AllocError, Global};

/// The end of the replies: at the last line, or at a line that isn't a request.
#[derive(Clone, Copy, Debug, PartialEq, Eq)]
pub enum Outcome {
    /// Each line is a request.
    Done,
    /// A line isn't a request, and the replies end there.
    BadLine,
}

/// The replies to the lines of an input, up to the first bad one.
#[derive(Drop)]
pub struct Answer {
    pub text: String,
    pub outcome: Outcome,
}

impl Answer {
    ghost use Rattle.std.specs.Prelude.{◌<◌, ◌^◌, length, IfOk, string_bytes};
    ghost use Rattle.typer_answers.specs.Answers.{IsAnswer};

    /// Returns the replies to the lines of an input.
    pub fn to(alloc: Global, input: &[u8]) -> Result<Answer, AllocError>
        requires { length input.now < 2 ^ 32 }
        ensures { IfOk result (λ a. IsAnswer input.now (string_bytes a.text) a.outcome) }
    {
        let mut text = String::new(alloc);
        let mut number: u64 = 0;
        for line in Lines::new(input) {
            number += 1;
            let Some(reply) = Reply::to(alloc, line)? else {
                writeln!(text, "bad line {number}")?;
                return Ok(Answer {
                    text,
                    outcome: Outcome::BadLine,
                });
            };
            writeln!(text, "{reply}")?;
        }
        Ok(Answer {
            text,
            outcome: Outcome::Done,
        })
    }
}
