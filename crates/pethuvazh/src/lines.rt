//! Replies to lines with questions about types.
ghost use Rattle.pethuvazh.specs.Lines.{EndsWith, IsEnd};

use crate::copies::copy;
use crate::status::LinesStatus;
use std::alloc::Global;
use typer_answers::Answer;

/// The maximum number of bytes of an input.
const MOST_BYTES: usize = 1_048_576;

/// Writes the replies to lines into a buffer. Returns the status of the call.
fn answer_into(alloc: Global, lines: &[u8], text: &mut [u8], length: &mut usize) -> LinesStatus
    ensures { EndsWith lines.now text.old text.new length.new result }
{
    *length = 0;
    if lines.len() > MOST_BYTES {
        return LinesStatus::TooLong;
    }
    match Answer::to(alloc, lines) {
        Ok(answer) => {
            copy(answer.text.as_bytes(), text, length);
            LinesStatus::of(answer.outcome)
        }
        Err(_) => LinesStatus::OutOfMemory,
    }
}

/// Writes the replies to lines into `text`, if it has room, and their length into `length`.
///
/// Returns a number of `LinesStatus`.
#[unsafe(no_mangle)]
pub extern "C" fn pethuvazh_answer_into(
    alloc: Global,
    lines: &[u8],
    text: &mut [u8],
    length: &mut usize,
) -> u32
    ensures { IsEnd lines.now text.old text.new length.new result }
{
    answer_into(alloc, lines, text, length).code()
}
