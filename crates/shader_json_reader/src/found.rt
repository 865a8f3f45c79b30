//! Describes the value that was found instead of the required one.

use json::Value;
use std::alloc::{AllocError, Global};

/// The greatest number of bytes of a text that is quoted in full.
const MOST_BYTES_TOLD: usize = 60;

/// Describes a value: by its text if it is short and contains no values, otherwise by its kind and size.
pub fn found_words(alloc: Global, value: &Value<'_>) -> Result<String, AllocError> {
    match value {
        Value::Null => "null".to_string(alloc),
        Value::Bool(true) => "true".to_string(alloc),
        Value::Bool(false) => "false".to_string(alloc),
        Value::Number(text) if text.len() <= MOST_BYTES_TOLD => text.to_string(alloc),
        Value::Number(text) => format!(in alloc; "a number of {} characters", text.len()),
        Value::String(text) if text.len() <= MOST_BYTES_TOLD => format!(in alloc; "{text:?}"),
        Value::String(text) => format!(in alloc; "a string of {} bytes", text.len()),
        Value::Array(items) => counted(alloc, "an array", "item", items.len()),
        Value::Object(members) => object_words(alloc, members.as_slice()),
    }
}

/// Describes an object: by its field if it has only one, with a short name, otherwise by their number.
fn object_words(alloc: Global, members: &[(&str, Value<'_>)]) -> Result<String, AllocError> {
    match members {
        [member] if member.0.len() <= MOST_BYTES_TOLD => {
            format!(in alloc; "an object with the one field {:?}", member.0)
        }
        _ => counted(alloc, "an object", "field", members.len()),
    }
}

/// Describes a value with this number of parts.
fn counted(alloc: Global, what: &str, part: &str, count: usize) -> Result<String, AllocError> {
    match count {
        0 => format!(in alloc; "{what} without {part}s"),
        1 => format!(in alloc; "{what} of 1 {part}"),
        _ => format!(in alloc; "{what} of {count} {part}s"),
    }
}
