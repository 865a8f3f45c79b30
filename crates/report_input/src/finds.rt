//! Where the value at a path stands in a text of JSON.
ghost use Rattle.std.specs.Prelude.{IfOk, IfSome};
ghost use Rattle.report_input.specs.Finds.{IsFound, IsSpanFor};

use crate::spans::{Span, second_key_span, span_of};
use crate::steps::{Step, steps_of};
use std::alloc::{AllocError, Global};

/// What of a value is looked up.
#[derive(Clone, Copy, Debug, PartialEq, Eq)]
pub enum Part {
    /// All of it.
    Value,
    /// The second key of the member that it is. Of a key that stands twice in a list of pairs, all of it.
    SecondKey,
}

/// The way to a value, and its bytes, if the text has it.
#[derive(Debug, Drop)]
pub struct Found {
    pub steps: Vec<Step>,
    pub span: Option<Span>,
}

/// Returns the bytes of a part of the value to which steps lead, if the text has it.
fn span_for(
    alloc: Global,
    input: &[u8],
    part: Part,
    steps: &[Step],
) -> Result<Option<Span>, AllocError>
    ensures { IfOk result (λ found. IfSome found (λ span. IsSpanFor part input.now steps.now span)) }
{
    match part {
        Part::Value => span_of(alloc, input, steps),
        Part::SecondKey => match second_key_span(alloc, input, steps)? {
            Some(span) => Ok(Some(span)),
            None => span_of(alloc, input, steps),
        },
    }
}

/// Returns where a part of the value at a path stands, if the path has the form of one.
///
/// # Errors
///
/// `AllocError` if an allocation fails.
pub fn find(
    alloc: Global,
    input: &[u8],
    part: Part,
    path: &str,
) -> Result<Option<Found>, AllocError>
    ensures { IfOk result (λ result. IfSome result (λ found. IsFound part input.now path.now found)) }
{
    let Some(steps) = steps_of(alloc, path)? else {
        return Ok(None);
    };
    let span = span_for(alloc, input, part, steps.as_slice())?;
    Ok(Some(Found { steps, span }))
}
