//! The bytes of values in a text of JSON. They are looked up only for an error, so reading needs no memory for them.
ghost use Rattle.std.specs.Prelude.{◌≡◌, ◌≤◌, Some, IfOk, IfSome, true};
ghost use Rattle.json.specs.Json.{document, max_depth};
ghost use Rattle.json.specs.Tree.{HasNumbers, depth};
ghost use Rattle.json.specs.Value.{value_view};
ghost use Rattle.report_input.specs.Spans.{IsKeySpan, IsNextSpan, IsRepeatedKeySpan, IsSpanOf, bytes_of};

use crate::steps::Step;
use crate::walks::{enter_member, walk};
use json::{Error, MAX_DEPTH, Reader, Scratch, Value, to_vec};
use std::alloc::{AllocError, Global};

/// The bytes of a value in a text.
#[derive(Clone, Copy, Debug, PartialEq, Eq)]
pub struct Span {
    /// The first byte.
    pub begin: usize,
    /// The byte behind the last one.
    pub end: usize,
}

/// Returns the bytes of a span.
pub fn bytes_of(input: &[u8], span: Span) -> &[u8]
    ensures { result.now ≡ bytes_of input.now span }
{
    let begin = span.begin.min(input.len());
    let rest = &input[begin..];
    let length = span.end.saturating_sub(span.begin).min(rest.len());
    &rest[..length]
}

/// Returns the span from a byte to before another one, without white space and a character at its end.
fn trimmed(input: &[u8], begin: usize, behind: usize, last: u8) -> Span {
    let bytes = bytes_of(input, Span { begin, end: behind }).trim_ascii_end();
    let bytes = match bytes.split_last() {
        Some((byte, rest)) if *byte == last => rest.trim_ascii_end(),
        _ => bytes,
    };
    Span {
        begin,
        end: begin.saturating_add(bytes.len()),
    }
}

/// Checks whether a text spells a value.
#[tactic(auto, using(crate::proofs::SpanLemmas::same_value))]
fn spells(alloc: Global, text: &[u8], value: &Value<'_>) -> Result<bool, AllocError>
    requires numbers { HasNumbers (value_view value.now) }
    requires nests { depth (value_view value.now) ≤ max_depth }
    ensures { IfOk result (λ is. is ≡ true → document text.now ≡ Some (value_view value.now)) }
{
    let mut scratch = Scratch::new(alloc);
    match Value::from_slice(alloc, text, &mut scratch) {
        Ok(found) => {
            let one = to_vec(alloc, &found)?;
            let other = to_vec(alloc, value)?;
            Ok(one.as_slice() == other.as_slice())
        }
        Err(Error::OutOfMemory) => Err(AllocError),
        Err(_) => Ok(false),
    }
}

/// Returns the bytes of the value that comes next, if they are found.
fn next_span(
    alloc: Global,
    input: &[u8],
    reader: &mut Reader<'_>,
) -> Result<Option<Span>, AllocError>
    ensures { IfOk result (λ found. IfSome found (λ span. IsNextSpan input.now reader.old span)) }
{
    let begin = reader.offset();
    match Value::read(alloc, reader, MAX_DEPTH) {
        Ok(value) => {
            let span = trimmed(input, begin, reader.offset(), b',');
            if spells(alloc, bytes_of(input, span), &value)? {
                Ok(Some(span))
            } else {
                Ok(None)
            }
        }
        Err(Error::OutOfMemory) => Err(AllocError),
        Err(_) => Ok(None),
    }
}

/// Returns the bytes of the value to which steps lead, if the text has it.
///
/// # Errors
///
/// `AllocError` if an allocation fails.
pub fn span_of(alloc: Global, input: &[u8], steps: &[Step]) -> Result<Option<Span>, AllocError>
    ensures { IfOk result (λ found. IfSome found (λ span. IsSpanOf input.now steps.now span)) }
{
    let Ok(text) = str::from_utf8(input) else {
        return Ok(None);
    };
    let mut scratch = Scratch::new(alloc);
    let mut reader = Reader::new(text, &mut scratch)?;
    if walk(&mut reader, steps) {
        next_span(alloc, input, &mut reader)
    } else {
        Ok(None)
    }
}

/// Returns the bytes of a key that begins at a byte and ends before its value, if they spell this name.
fn key_span(
    alloc: Global,
    input: &[u8],
    begin: usize,
    value_at: usize,
    name: &str,
) -> Result<Option<Span>, AllocError>
    ensures { IfOk result (λ found. IfSome found (λ span. IsKeySpan name.now input.now span)) }
{
    let span = trimmed(input, begin, value_at, b':');
    let mut scratch = Scratch::new(alloc);
    match Value::from_slice(alloc, bytes_of(input, span), &mut scratch) {
        Ok(Value::String(key)) if key == name => Ok(Some(span)),
        Err(Error::OutOfMemory) => Err(AllocError),
        _ => Ok(None),
    }
}

/// Returns the bytes of the second key of a name in the object around the value to which steps lead, if the last step is to a member.
///
/// # Errors
///
/// `AllocError` if an allocation fails.
pub fn second_key_span(
    alloc: Global,
    input: &[u8],
    steps: &[Step],
) -> Result<Option<Span>, AllocError>
    ensures { IfOk result (λ found. IfSome found (λ span. IsRepeatedKeySpan input.now steps.now span)) }
{
    let Ok(text) = str::from_utf8(input) else {
        return Ok(None);
    };
    let Some((Step::Member(name), _)) = steps.split_last() else {
        return Ok(None);
    };
    let mut scratch = Scratch::new(alloc);
    let mut reader = Reader::new(text, &mut scratch)?;
    if !walk(&mut reader, steps) || reader.skip_value(MAX_DEPTH).is_err() {
        return Ok(None);
    }
    match enter_member(&mut reader, name.as_str()) {
        Some(key_at) => key_span(alloc, input, key_at, reader.offset(), name.as_str()),
        None => Ok(None),
    }
}
